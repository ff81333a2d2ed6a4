// Testing a codeword, whole blocks of layers at a time. Promises that a test answers sound exactly when the buffer is a codeword, and else the first bad
// layer with the least check broken there; a layout or length that does not fit is refused, for every layout and buffer.
#![tactic(auto)]

ghost use Rattle.std.specs.Prelude.{◌≡◌, ◌*◌, ◌^◌, ◌<◌, ◌≤◌, eqb, length, get_or};
ghost use Rattle.algebra.specs.Plain.{reduced};
ghost use Rattle.layout.specs.Layout.{checks, digits, layers};
ghost use Rattle.codeword.specs.Test.{TestAnswer};
ghost use Rattle.codeword.specs.Inner.{Scannable, Scanned};
ghost use Rattle.blocks.specs.Inner.{Block};
ghost use Rattle.syndrome.specs.Inner.{Room};
ghost use Rattle.testing.specs.Inner.{FirstIn, FirstBroken};

use codeword::Tested;
use field::FieldNumber;
use layout::{Layer, Layout};
use rack_checks::fields::SumChecks;

// A layer of a block and a check.
#[derive(Drop)]
struct Place {
    column: usize,
    check: usize,
}

// Whether the symbol at a place is zero.
fn is_zero<N: FieldNumber>(sums: &[N], i: usize) -> bool
    requires { i < length sums.now }
    ensures { result ≡ eqb (reduced N.field (get_or (N.codes sums.now) i 0)) 0 }
{
    kernel::at(sums, i).index() == 0
}

// The first of w columns with a number that is not zero, w for none, and the least of its r rows where that stands.
fn first_in<N: FieldNumber>(sums: &[N], w: usize, r: usize) -> Place
    requires { r * w ≤ length sums.now }
    ensures { FirstIn N.field w r (N.codes sums.now) result.column result.check }
{
    let mut found = Place {
        column: w,
        check: r,
    };
    'layers: for j in 0..w {
        for t in 0..r {
            if !is_zero(sums, t * w + j) {
                found = Place {
                    column: j,
                    check: t,
                };
                break 'layers;
            }
        }
    }
    found
}

// The first layer of a block with a broken check and the least check broken there. No tray is left out: `none` is an empty list.
fn first_broken<N: SumChecks>(
    l: Layout,
    w: usize,
    first: usize,
    r: usize,
    c: &[N],
    none: &[u32],
    sums: &mut [N],
    cur: &mut [N],
    row: &mut [N],
) -> Place
    requires { Block l w first × Scannable l (layers l) (N.codes c.now) × (r ≡ checks l) × (length none.now ≡ 0) × Room w r sums.old cur.old row.old }
    ensures { FirstBroken N.field l w first (N.codes c.now) result.column result.check }
{
    N::sum_kept(sums, l, w, first, r, c, none, cur, row);
    first_in(sums, w, r)
}

// Block after block.
fn scan_blocks<N: SumChecks>(
    l: Layout,
    total: u32,
    e: u32,
    c: &[N],
    none: &[u32],
    sums: &mut [N],
    cur: &mut [N],
    row: &mut [N],
) -> Tested
    requires { (e ≤ l.racks) × Scannable l total (N.codes c.now) × (length none.now ≡ 0) × Room (digits l ^ e) (checks l) sums.old cur.old row.old }
    ensures { Scanned N.field l (N.codes c.now) result }
{
    let r = layout::check_count(l) as usize;
    let w = blocks::block_width(l, e);
    for q in 0..total as usize / w {
        let p = first_broken(l, w, q * w, r, c, none, sums, cur, row);
        if p.column < w {
            return Tested::Bad {
                layer: Layer::of((q * w + p.column) as u32),
                check: p.check as u32,
            };
        }
    }
    Tested::Sound
}

// The same with room to work in.
fn scan<N: SumChecks>(l: Layout, total: u32, c: &[N]) -> Tested
    requires { Scannable l total (N.codes c.now) }
    ensures { Scanned N.field l (N.codes c.now) result }
{
    let e = blocks::block_digits(l);
    let none = [0u32; 0];
    let mut sums = [N::zero(); blocks::ROOM];
    let mut cur = [N::zero(); blocks::BLOCK];
    let mut row = [N::zero(); blocks::BLOCK];
    scan_blocks(l, total, e, c, &none, &mut sums, &mut cur, &mut row)
}

// Tests a whole codeword.
pub fn test<N: SumChecks>(l: Layout, c: &[N]) -> Tested
    ensures { TestAnswer N.field l (N.codes c.now) result }
{
    if !layout::admitted(N::ORDER as u32, l) {
        return Tested::Refused(1);
    }
    let total = layout::layer_count(l);
    if c.len() != layout::tray_count(l) as usize * total as usize {
        return Tested::Refused(2);
    }
    if !range::are_symbols(c, 0, c.len()) {
        return Tested::Refused(3);
    }
    scan(l, total, c)
}
