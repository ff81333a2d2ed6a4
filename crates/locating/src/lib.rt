// Which one of the helpers' shares is wrong. With two helpers more than unknowns a group has two residues (module residues), which are both zero exactly where its checks
// hold; a wrong share shows in both, by its helper's point. Promises the helper that the residues of all groups point to, that they are all zero, or that they point to
// none.
#![tactic(auto)]

mod residues;

ghost use Rattle.std.specs.Prelude.{◌≡◌, ◌&&◌, ◌+◌, ◌<◌, ◌≤◌, length};
ghost use Rattle.symbol.specs.Elem.{gf256};
ghost use Rattle.kernel.specs.Inner.{all_zero};
ghost use Rattle.layout.specs.Layout.{groups};
ghost use Rattle.blocks.specs.Inner.{block_limit};
ghost use Rattle.restore.specs.Inner.{Says};
ghost use Rattle.sums.specs.Inner.{Chosen};
ghost use Rattle.locating.specs.Inner.{Rooms, Sent, PointsAt, RowAgrees, FirstAt, PointedTo, Found};

use layout::Layout;
use symbol::plain::{difference, product};

// Whether in a run of residues those of number 1 are the row's symbols times those of number 0.
fn row_agrees(zeroth: &[u8], first: &[u8], at: usize, w: usize, row: &[u8]) -> bool
    requires { (at + w ≤ length zeroth.now) × (at + w ≤ length first.now) × (w ≤ length row.now) }
    ensures { Says result (RowAgrees gf256 zeroth.now first.now at w row.now) }
{
    for j in 0..w {
        let v = product(kernel::at(row, j), kernel::at(zeroth, at + j));
        if difference(kernel::at(first, at + j), v) != 0 {
            return false;
        }
    }
    true
}

// Whether the residues of all groups point to helper k.
fn is_located(
    l: Layout,
    h: u32,
    helpers: &[u32],
    k: usize,
    zeroth: &[u8],
    first: &[u8],
    row: &mut [u8],
) -> bool
    requires { Chosen l h helpers.now × (k < l.helpers) × (groups l ≤ length zeroth.now) × (groups l ≤ length first.now) × (block_limit ≤ length row.old) }
    ensures { Says result (PointsAt gf256 l h helpers.now zeroth.now first.now k (groups l)) }
{
    let u = l.size;
    let total = layout::group_count(l);
    // a turn goes on by its block's width: no plainer form was found
    let mut p = 0u32;
    while p < total {
        let w = blocks::block_at(l, p, total - p, 1);
        sums::rack_powers(row, l, h, w as usize, p as usize, helpers[k], u);
        if !row_agrees(zeroth, first, p as usize, w as usize, row) {
            return false;
        }
        p += w;
    }
    true
}

// Whether all residues are zero.
fn all_clear(zeroth: &[u8], first: &[u8], total: usize) -> bool
    requires { (total ≤ length zeroth.now) × (total ≤ length first.now) }
    ensures { result ≡ (all_zero gf256 zeroth.now total && all_zero gf256 first.now total) }
{
    if !kernel::all_zero(zeroth, total) {
        return false;
    }
    kernel::all_zero(first, total)
}

// The first helper that the residues point to, d + 1 for none.
fn first_located(
    l: Layout,
    h: u32,
    helpers: &[u32],
    zeroth: &[u8],
    first: &[u8],
    row: &mut [u8],
) -> usize
    requires { Chosen l h helpers.now × (groups l ≤ length zeroth.now) × (groups l ≤ length first.now) × (block_limit ≤ length row.old) }
    ensures { FirstAt gf256 l h helpers.now zeroth.now first.now result }
{
    for k in 0..helpers.len() {
        if is_located(l, h, helpers, k, zeroth, first, row) {
            return k;
        }
    }
    helpers.len() + 1
}

// Which helper's share is wrong, by the residues: d for none, d + 1 where no one share can be.
fn pointed(l: Layout, h: u32, helpers: &[u32], zeroth: &[u8], first: &[u8], row: &mut [u8]) -> usize
    requires { Chosen l h helpers.now × (groups l ≤ length zeroth.now) × (groups l ≤ length first.now) × (block_limit ≤ length row.old) }
    ensures { PointedTo gf256 l h helpers.now zeroth.now first.now result }
{
    if all_clear(zeroth, first, layout::group_count(l) as usize) {
        return helpers.len();
    }
    first_located(l, h, helpers, zeroth, first, row)
}

// The same from the shares.
fn locate_in(
    l: Layout,
    h: u32,
    helpers: &[u32],
    shares: &[u8],
    zeroth: &mut [u8],
    first: &mut [u8],
    sides: &mut [u8],
    points: &mut [u8],
    cur: &mut [u8],
    prod: &mut [u8],
    row: &mut [u8],
) -> usize
    requires { Sent l h helpers.now shares.now × Rooms zeroth.old first.old sides.old points.old cur.old prod.old row.old }
    ensures { Found gf256 l h helpers.now shares.now result }
{
    residues::all_residues(
        zeroth, first, l, h, helpers, shares, sides, points, cur, prod, row,
    );
    pointed(l, h, helpers, zeroth, first, row)
}

// The same with room of its own.
pub fn locate(l: Layout, h: u32, helpers: &[u32], shares: &[u8]) -> usize
    requires { Sent l h helpers.now shares.now }
    ensures { Found gf256 l h helpers.now shares.now result }
{
    let mut zeroth = [0u8; layout::LAYERS as usize];
    let mut first = [0u8; layout::LAYERS as usize];
    let mut sides = [0u8; blocks::ROOM];
    let mut points = [0u8; blocks::ROOM];
    let mut cur = [0u8; blocks::BLOCK];
    let mut prod = [0u8; blocks::BLOCK];
    let mut row = [0u8; blocks::BLOCK];
    locate_in(
        l,
        h,
        helpers,
        shares,
        &mut zeroth,
        &mut first,
        &mut sides,
        &mut points,
        &mut cur,
        &mut prod,
        &mut row,
    )
}
