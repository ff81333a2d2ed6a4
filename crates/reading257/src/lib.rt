// Made by tools/twin.py from crates/reading/src/lib.rt.
// Reading while a lost tray is being repaired (document 02, W7). Promises, for every layout, buffers, trays, run of layers and number of groups done, the
// first ground of refusal that applies and an empty part, or the run: a part of the store for a tray that is not lost, and of the spare for the lost one. Where
// the spare was written by pieces of a repair, the part is the codeword's (proofs/ReadsTheCodeword.antt).
#![tactic(auto)]

ghost use Rattle.std.specs.Prelude.{◌≡◌, length};
ghost use Rattle.symbol257.specs.Elem.{gf257};
ghost use Rattle.layout.specs.Layout.{Cabinet};
ghost use Rattle.reading.specs.Reading.{part_refusal, part_given};
ghost use Rattle.reading.specs.Inner.{Asked, Readable, in_range, all_done, available};

use layout::{Layout, Tray};
use symbol257::plain::ORDER;

// Whether every layer from `first` up to `end`, itself left out, is in one of the groups done, for the rack of the lost tray x.
fn all_done(l: Layout, x: u32, done: u32, first: u32, end: u32) -> bool
    requires { Asked l x first end }
    ensures { result ≡ all_done l x done first end }
{
    let h = x / l.size;
    for j in first..end {
        if done <= layout::group_of(l, h, j) {
            return false;
        }
    }
    true
}

// Whether both trays are of the layout, so many groups can be done, and the run is one of a tray's layers.
fn in_range(l: Layout, lost: u32, done: u64, tray: u32, first: u32, end: u32) -> bool
    requires { Cabinet l }
    ensures { result ≡ in_range l lost done tray first end }
{
    let n = layout::tray_count(l);
    if n <= lost {
        return false;
    }
    if n <= tray {
        return false;
    }
    if (layout::group_count(l) as u64) < done {
        return false;
    }
    if end < first {
        return false;
    }
    end <= layout::layer_count(l)
}

// Whether the run can be read: it is of a tray that is not lost, or all of it is done.
fn is_available(l: Layout, lost: u32, done: u64, tray: u32, first: u32, end: u32) -> bool
    requires { Readable l lost done tray first end }
    ensures { result ≡ available l lost done tray first end }
{
    if tray != lost {
        return true;
    }
    all_done(l, lost, done as u32, first, end)
}

// The first ground for refusing a read, 0 for none.
fn refusal(
    l: Layout,
    codeword: usize,
    spare: usize,
    lost: u32,
    done: u64,
    tray: u32,
    first: u32,
    end: u32,
) -> u8
    ensures { result ≡ part_refusal gf257.order l codeword spare lost done tray first end }
{
    if !layout::admitted_with(ORDER as u32, 0, l) {
        return 1;
    }
    let total = layout::layer_count(l) as usize;
    if codeword != layout::tray_count(l) as usize * total {
        return 2;
    }
    if spare != total {
        return 2;
    }
    if !in_range(l, lost, done, tray, first, end) {
        return 3;
    }
    if !is_available(l, lost, done, tray, first, end) {
        return 13;
    }
    0
}

// Reads the layers from `first` up to `end`, itself left out, of a tray while `lost` is being repaired in the spare, of which so many groups are done from
// group 0 on: gives a part of the codeword or of the spare, and writes the refusal's number.
pub fn read_part<'a>(
    l: Layout,
    codeword: &'a [u16],
    spare: &'a [u16],
    lost: Tray,
    done: u64,
    tray: Tray,
    first: u32,
    end: u32,
    number: &mut u32,
) -> &'a [u16]
    ensures part { result.now ≡ part_given gf257.order l codeword.now spare.now lost.0 done tray.0 first end }
    ensures number { number.new ≡ part_refusal gf257.order l (length codeword.now) (length spare.now) lost.0 done tray.0 first end }
{
    let x = lost.number();
    let y = tray.number();
    let ground = refusal(l, codeword.len(), spare.len(), x, done, y, first, end);
    *number = ground as u32;
    if ground != 0 {
        return &codeword[..0];
    }
    if y == x {
        return &spare[first as usize..end as usize];
    }
    let from = y as usize * layout::layer_count(l) as usize;
    &codeword[from + first as usize..from + end as usize]
}
