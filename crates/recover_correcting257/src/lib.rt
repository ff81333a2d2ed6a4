// Made by tools/twin.py from crates/recover_correcting/src/lib.rt.
// Recovering erased trays where one more may be wrong and nobody says which. What a recovery does is done as it does it; where no
// codeword has the survivors and two
// checks or more are left over, each tray that is not erased is tried as if it were erased too. At most one of them leaves survivors of a
// codeword
// (proofs/Settled.antt): it is named, and the buffer becomes that codeword. It decides before it writes; a refused call changes no symbol.
#![tactic(auto)]

mod list;

ghost use Rattle.std.specs.Prelude.{◌≡◌, ◌+◌, ◌-◌, ◌<◌, ◌≤◌, length};
ghost use Rattle.symbol257.specs.Elem.{gf257};
ghost use Rattle.layout.specs.Layout.{trays, checks, tray_limit, Cabinet};
ghost use Rattle.recover.specs.Recover.{recover_refusal};
ghost use Rattle.recover_correcting.specs.RecoverCorrecting.{NoCodeword, CorrectionAnswer};
ghost use Rattle.recover_correcting.specs.Inner.{Trying, Begun, Tried, Found, Wrong, Replaced};

use layout::Layout;
use recover_correcting::Recovered;

// Whether tray x is not erased, and the others fit without it.
fn fits_without(l: Layout, total: u32, c: &[u16], es: &[u32], list: &mut [u32], x: u32) -> bool
    requires { Trying gf257.order l total es.now c.now × Begun es.now list.old × (x < trays l) }
    ensures { Tried gf257 l es.now c.now x list.new result }
{
    if !lists::is_absent(es, x) {
        return false;
    }
    list::put_last(list, x);
    restore257::all_fit(l, total, c, list)
}

// The first tray without which the others fit, n for none.
fn find_wrong(l: Layout, total: u32, c: &[u16], es: &[u32], list: &mut [u32]) -> u32
    requires { Trying gf257.order l total es.now c.now × Begun es.now list.old }
    ensures { Found gf257 l es.now c.now list.new result }
{
    let n = layout::tray_count(l);
    for x in 0..n {
        if fits_without(l, total, c, es, list, x) {
            return x;
        }
    }
    n
}

// Finds the wrong tray and writes it and the erased ones, or answers n and writes nothing.
fn replace_wrong(l: Layout, total: u32, c: &mut [u16], es: &[u32], list: &mut [u32]) -> u32
    requires { Trying gf257.order l total es.now c.old × (length list.old ≡ length es.now + 1) }
    ensures { Replaced gf257 l es.now c.old c.new result }
{
    let n = layout::tray_count(l);
    list::begin(list, es);
    let x = find_wrong(l, total, c, es, list);
    if n <= x {
        return n;
    }
    restore257::restore(l, total, c, list);
    x
}

// The same with more room than is needed.
fn replace_in(l: Layout, total: u32, c: &mut [u16], es: &[u32], room: &mut [u32]) -> u32
    requires { Trying gf257.order l total es.now c.old × (tray_limit ≤ length room.old) }
    ensures { Replaced gf257 l es.now c.old c.new result }
{
    let m = es.len() + 1;
    replace_wrong(l, total, c, es, &mut room[..m])
}

// The same with room of its own.
fn replace(l: Layout, c: &mut [u16], es: &[u32]) -> u32
    requires { Wrong gf257.order l es.now c.old }
    ensures { Replaced gf257 l es.now c.old c.new result }
{
    let total = layout::layer_count(l);
    let mut room = [0u32; layout::TRAYS as usize];
    replace_in(l, total, c, es, &mut room)
}

// The checks that are left over when the erased trays are solved.
fn left_over(l: Layout, es: &[u32]) -> u32
    requires { Cabinet l × (length es.now ≤ checks l) }
    ensures { result ≡ checks l - length es.now }
{
    layout::check_count(l) - es.len() as u32
}

// What is answered where no codeword has all survivors.
fn correct(l: Layout, c: &mut [u16], es: &[u32]) -> Recovered
    requires { (recover_refusal gf257 l es.now c.old ≡ 0) × NoCodeword gf257 l es.now c.old }
    ensures { CorrectionAnswer gf257 l es.now c.old c.new result }
{
    let n = layout::tray_count(l);
    let left = left_over(l, es);
    if left < 2 {
        return Recovered::Refused(8);
    }
    let x = replace(l, c, es);
    if n <= x {
        return Recovered::Refused(8);
    }
    Recovered::Done {
        tray: x,
        checks: left,
    }
}

// Recovers the trays erased and one that may be wrong, or refuses and writes nothing.
pub fn recover_correcting(l: Layout, c: &mut [u16], erased: &[u32]) -> Recovered
    ensures { CorrectionAnswer gf257 l erased.now c.old c.new result }
{
    let number = recover257::recover(l, c, erased);
    if number == 8 {
        return correct(l, c, erased);
    }
    if number != 0 {
        return Recovered::Refused(number);
    }
    Recovered::Done {
        tray: layout::tray_count(l),
        checks: left_over(l, erased),
    }
}
