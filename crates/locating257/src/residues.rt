// Made by tools/twin.py from crates/locating/src/residues.rt.
// The residues of the groups, block after block: the sum over the helpers of each share's symbol times the product of the differences of its point from those of the
// unknowns, and the same with each term times the point. The unknowns are in neither. Promises both residues of every group.
ghost use Rattle.std.specs.Prelude.{◌+◌, ◌*◌, ◌<◌, ◌≤◌, length};
ghost use Rattle.symbol257.specs.Elem.{gf257};
ghost use Rattle.layout.specs.Layout.{groups, parity_racks};
ghost use Rattle.sums.specs.Inner.{PointsTo};
ghost use Rattle.locating.specs.Inner.{GapsTo, Pointing, OwnPoints, Sharing, ShareGaps, BlockRoom, PartAdded, PartsTo, Kept, Rooms, Sent};

use layout::Layout;

// The product over the n unknowns of the differences of their points from those in row n.
fn gap_row(cur: &mut [u16], w: usize, n: usize, points: &[u16])
    requires { (w ≤ length cur.old) × (n * w + w ≤ length points.now) }
    ensures { GapsTo gf257 w n points.now n cur.new }
{
    kernel::fill(cur, 0, w, 1);
    for i in 0..n {
        kernel::part(cur, 0, w, points, n * w, i * w);
    }
}

// Helper k's points in a block, as a row and as row n of the points.
fn own_points(
    points: &mut [u16],
    row: &mut [u16],
    l: Layout,
    h: u32,
    w: usize,
    first: usize,
    helpers: &[u32],
    k: usize,
)
    requires { Pointing gf257 l h w first helpers.now points.old row.old × (k < l.helpers) }
    ensures { OwnPoints gf257 l h w first helpers.now k points.new row.new }
{
    let u = l.size;
    let n = sums257::unknown_count(l) as usize;
    sums257::rack_powers(row, l, h, w, first, helpers[k], u);
    kernel::copy(points, n * w, w, row, 0);
}

// Helper k's share in a block, each symbol times the product of its point's differences.
fn share_gaps(
    prod: &mut [u16],
    l: Layout,
    h: u32,
    w: usize,
    first: usize,
    helpers: &[u32],
    shares: &[u16],
    k: usize,
    points: &[u16],
    cur: &mut [u16],
)
    requires { Sharing gf257 l h w first helpers.now shares.now k points.now cur.old prod.old }
    ensures { ShareGaps gf257 l h w first helpers.now shares.now k prod.new }
{
    let n = sums257::unknown_count(l) as usize;
    let at = codeword::cell(layout::group_count(l), k as u32, first as u32);
    gap_row(cur, w, n, points);
    kernel::fill(prod, 0, w, 0);
    kernel::add_product(prod, 0, w, shares, at, cur, 0);
}

// Adds helper k's part to both residues of a block.
fn add_part(
    sides: &mut [u16],
    l: Layout,
    h: u32,
    w: usize,
    first: usize,
    helpers: &[u32],
    shares: &[u16],
    k: usize,
    points: &mut [u16],
    cur: &mut [u16],
    prod: &mut [u16],
    row: &mut [u16],
)
    requires { BlockRoom l h w first helpers.now shares.now sides.old points.old cur.old prod.old row.old × (k < l.helpers)
        × PointsTo gf257 l h first helpers.now w 1 (parity_racks l) points.old }
    ensures part { PartAdded gf257 l h w first helpers.now shares.now k sides.old sides.new }
    ensures points { PointsTo gf257 l h first helpers.now w 1 (parity_racks l) points.new }
{
    own_points(points, row, l, h, w, first, helpers, k);
    share_gaps(prod, l, h, w, first, helpers, shares, k, points, cur);
    syndrome::add_terms(sides, w, 2, prod, row);
}

// Both residues of a block.
fn block_residues(
    sides: &mut [u16],
    l: Layout,
    h: u32,
    w: usize,
    first: usize,
    helpers: &[u32],
    shares: &[u16],
    points: &mut [u16],
    cur: &mut [u16],
    prod: &mut [u16],
    row: &mut [u16],
)
    requires { BlockRoom l h w first helpers.now shares.now sides.old points.old cur.old prod.old row.old }
    ensures { PartsTo gf257 l h w first helpers.now shares.now l.helpers sides.new }
{
    sums257::unknown_points(points, l, h, w, first, helpers, w, 1, row);
    kernel::fill(sides, 0, 2 * w, 0);
    for k in 0..helpers.len() {
        add_part(
            sides, l, h, w, first, helpers, shares, k, points, cur, prod, row,
        );
    }
}

// The residues of a block, after those of the groups before.
fn keep_block(
    zeroth: &mut [u16],
    first: &mut [u16],
    l: Layout,
    h: u32,
    w: usize,
    at: usize,
    helpers: &[u32],
    shares: &[u16],
    sides: &mut [u16],
    points: &mut [u16],
    cur: &mut [u16],
    prod: &mut [u16],
    row: &mut [u16],
)
    requires { BlockRoom l h w at helpers.now shares.now sides.old points.old cur.old prod.old row.old
        × Kept gf257 l h helpers.now shares.now at zeroth.old first.old × (at + w ≤ length zeroth.old) × (at + w ≤ length first.old) }
    ensures { Kept gf257 l h helpers.now shares.now (at + w) zeroth.new first.new }
{
    block_residues(sides, l, h, w, at, helpers, shares, points, cur, prod, row);
    kernel::copy(zeroth, at, w, sides, 0);
    kernel::copy(first, at, w, sides, w);
}

// The residues of all groups.
pub fn all_residues(
    zeroth: &mut [u16],
    first: &mut [u16],
    l: Layout,
    h: u32,
    helpers: &[u32],
    shares: &[u16],
    sides: &mut [u16],
    points: &mut [u16],
    cur: &mut [u16],
    prod: &mut [u16],
    row: &mut [u16],
)
    requires { Sent l h helpers.now shares.now × Rooms zeroth.old first.old sides.old points.old cur.old prod.old row.old }
    ensures { Kept gf257 l h helpers.now shares.now (groups l) zeroth.new first.new }
{
    let total = layout::group_count(l);
    let rows = sums257::unknown_count(l) + 1;
    // a turn goes on by its block's width: no plainer form was found
    let mut p = 0u32;
    while p < total {
        let w = blocks::block_at(l, p, total - p, rows);
        keep_block(
            zeroth, first, l, h, w as usize, p as usize, helpers, shares, sides, points, cur, prod,
            row,
        );
        p += w;
    }
}
