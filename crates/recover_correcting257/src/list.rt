// Made by tools/twin.py from crates/recover_correcting/src/list.rt.
// The list of the erased trays with one tray more at its end.
ghost use Rattle.std.specs.Prelude.{◌≡◌, ◌+◌, ◌-◌, ◌<◌, length, set};
ghost use Rattle.recover_correcting.specs.Inner.{Begun};

// The erased trays, before a last place.
pub fn begin(list: &mut [u32], es: &[u32])
    requires { length list.old ≡ length es.now + 1 }
    ensures { Begun es.now list.new }
{
    list[..es.len()].copy_from_slice(es);
}

// A tray in the last place.
pub fn put_last(list: &mut [u32], x: u32)
    requires { 0 < length list.old }
    ensures { list.new ≡ set list.old (length list.old - 1) x }
{
    let m = list.len() - 1;
    list[m] = x;
}
