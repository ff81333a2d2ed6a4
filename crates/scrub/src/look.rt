// Looking at layers, a block at a time: which are bad, and the record after them.
ghost use Rattle.std.specs.Prelude.{◌≡◌, Bool, ℕ, ◌+◌, ◌*◌, ◌<◌, ◌≤◌, length};
ghost use Rattle.symbol.specs.Elem.{gf256};
ghost use Rattle.layout.specs.Layout.{trays, checks, layers, layer_limit};
ghost use Rattle.blocks.specs.Inner.{block_limit, room_limit, Block};
ghost use Rattle.syndrome.specs.Inner.{Room};
ghost use Rattle.scrub.specs.Scrub.{bad_layer, after};
ghost use Rattle.scrub.specs.Inner.{column_bad, look, Ahead};

use crate::Walk;
use layout::Layout;
use symbol::plain::index;

// Whether some check is broken in column j of the sums of r checks, which have w columns.
fn bad_column(sums: &[u8], w: usize, r: usize, j: usize) -> bool
    requires { (r * w ≤ length sums.now) × (j < w) }
    ensures { result ≡ column_bad gf256 w r sums.now j }
{
    for t in 0..r {
        if index(kernel::at(sums, t * w + j)) != 0 {
            return true;
        }
    }
    false
}

// The record after one more layer, which is bad or not.
fn look_at(walk: Walk, bad: bool) -> Walk
    requires { (walk.next < layer_limit) × (walk.bad ≤ walk.next) }
    ensures { result ≡ look bad walk }
{
    let j = walk.next;
    let n = walk.bad;
    let f = walk.first;
    if !bad {
        return Walk {
            next: j + 1,
            bad: n,
            first: f,
        };
    }
    if n == 0 {
        return Walk {
            next: j + 1,
            bad: 1,
            first: j,
        };
    }
    Walk {
        next: j + 1,
        bad: n + 1,
        first: f,
    }
}

// The record after so many layers more, by the sums of their checks.
fn look_along(walk: Walk, w: usize, r: usize, sums: &[u8]) -> Walk
    requires { (r * w ≤ length sums.now) × (walk.next + w ≤ layer_limit) × (walk.bad ≤ walk.next) }
    ensures { (p : ℕ → Bool) → ((j : ℕ) → j < w → column_bad gf256 w r sums.now j ≡ p (walk.next + j)) → result ≡ after p walk w }
{
    let mut seen = walk;
    for j in 0..w {
        seen = look_at(seen, bad_column(sums, w, r, j));
    }
    seen
}

// The same for the layers of a block. No tray is left out: `none` is an empty list.
fn look_block(
    l: Layout,
    c: &[u8],
    none: &[u32],
    walk: Walk,
    w: usize,
    sums: &mut [u8],
    cur: &mut [u8],
    row: &mut [u8],
) -> Walk
    requires { Block l w walk.next × (walk.bad ≤ walk.next) × (length c.now ≡ trays l * layers l) × (length none.now ≡ 0) × Room w (checks l) sums.old cur.old row.old }
    ensures { result ≡ after (bad_layer gf256 l c.now) walk w }
{
    let r = layout::check_count(l) as usize;
    let first = walk.next;
    rack_checks::sum_kept(sums, l, w, first as usize, r, c, none, cur, row);
    look_along(walk, w, r, sums)
}

// Block after block.
fn look_blocks(
    l: Layout,
    total: u32,
    c: &[u8],
    none: &[u32],
    walk: Walk,
    count: u32,
    sums: &mut [u8],
    cur: &mut [u8],
    row: &mut [u8],
) -> Walk
    requires { Ahead l total c.now walk count × (length none.now ≡ 0) × (room_limit ≤ length sums.old) × (block_limit ≤ length cur.old) × (block_limit ≤ length row.old) }
    ensures { result ≡ after (bad_layer gf256 l c.now) walk count }
{
    let r = layout::check_count(l);
    let mut seen = walk;
    let mut left = count;
    // no plainer: the width of a block hangs on where the one before it ended
    while left > 0 {
        let first = seen.next;
        let w = blocks::block_at(l, first, left, r);
        seen = look_block(l, c, none, seen, w as usize, sums, cur, row);
        left -= w;
    }
    seen
}

// Looks at the next so many layers.
pub fn look_on(l: Layout, total: u32, c: &[u8], walk: Walk, count: u32) -> Walk
    requires { Ahead l total c.now walk count }
    ensures { result ≡ after (bad_layer gf256 l c.now) walk count }
{
    let none = [0u32; 0];
    let mut sums = [0u8; blocks::ROOM];
    let mut cur = [0u8; blocks::BLOCK];
    let mut row = [0u8; blocks::BLOCK];
    look_blocks(
        l, total, c, &none, walk, count, &mut sums, &mut cur, &mut row,
    )
}
