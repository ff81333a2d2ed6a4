// Made by tools/twin.py from crates/sums/src/lib.rt.
// The host rack sums of a block of groups in a repair of e lost trays. For each weight m below e the R checks t = u·w + m summed over a group are one system
// for the s host rack sums and the group sums of the racks that are neither host nor helper; crate columns solves the systems of all groups of the block at
// a time. Promises these sums, weight after weight.
#![tactic(auto)]

ghost use Rattle.std.specs.Prelude.{◌≡◌, ◌+◌, ◌-◌, ◌*◌, ◌<◌, ◌≤◌, length};
ghost use Rattle.algebra.specs.Sum.{pow};
ghost use Rattle.algebra.specs.Points.{point};
ghost use Rattle.algebra.specs.Group.{skip, unskip, free};
ghost use Rattle.algebra.specs.Repair.{helper_place};
ghost use Rattle.symbol257.specs.Elem.{gf257};
ghost use Rattle.layout.specs.Layout.{digits, parity_racks, tray_limit, Cabinet};
ghost use Rattle.codeword.specs.Codeword.{shape_of};
ghost use Rattle.blocks.specs.Inner.{Block};
ghost use Rattle.sums.specs.Inner.{helper_at, Choosing, Chosen, Groups, RackPowers, Sharing, ShareTerms, ShareAdded, SidesTo, Pointed, PointRow, PointsTo, Cycle};
ghost use Rattle.sums.specs.Inner.{Workspace, FoundSums, RowTimes, Weighing, Weighed, Summing, SumsTo};

use layout::Layout;
use symbol257::Symbol;
use symbol257::plain::{difference, root_power};

// R, the number of unknowns of a group.
pub fn unknown_count(l: Layout) -> u32
    requires { Cabinet l }
    ensures { result ≡ parity_racks l }
{
    l.racks - l.dimension / l.size
}

// The number after x, unless x is below q.
fn skipped(q: u32, x: u32) -> u32
    requires { x ≤ 2 * tray_limit }
    ensures { result ≡ skip q x }
{
    if x < q {
        return x;
    }
    x + 1
}

// The digit of a group's number that is rack i's own, which is not the host h.
fn group_digit(h: u32, i: u32) -> u32
    requires { ¬ (i ≡ h) }
    ensures { result ≡ unskip h i }
{
    if i < h {
        return i;
    }
    i - 1
}

// Where the word of a group has the sum of rack i.
fn rack_place(s: u32, h: u32, i: u32) -> u32
    requires { (s ≤ tray_limit) × (i < tray_limit) × ¬ (i ≡ h) }
    ensures { result ≡ s + unskip h i }
{
    s + group_digit(h, i)
}

// The place of unknown i in the word of a group: the i-th that is no helper's.
fn free_place(s: u32, h: u32, helpers: &[u32], i: u32) -> u32
    requires { Choosing s h helpers.now i }
    ensures { result ≡ free (helper_place s h (helper_at helpers.now)) (length helpers.now) i }
{
    let mut x = i;
    for helper in helpers {
        let q = rack_place(s, h, *helper);
        x = skipped(q, x);
    }
    x
}

// The point at place 0 of rack i for its digit a, to the power t.
fn digit_point(l: Layout, i: u32, a: u32, t: u32) -> u16
    requires { Cabinet l × (i < l.racks) × (a < digits l) × (t ≤ tray_limit) }
    ensures { gf257.coding.elem result ≡ pow gf257.ops (point (shape_of gf257 l) i a 0) t }
{
    let s = layout::digit_count(l);
    root_power(((i * s + a) * t) as usize)
}

// The points at place 0 of rack i to the power t, one for each group of a block.
pub fn rack_powers(row: &mut [u16], l: Layout, h: u32, w: usize, first: usize, i: u32, t: u32)
    requires { Block l w first × (h < l.racks) × (i < l.racks) × ¬ (i ≡ h) × (t ≤ tray_limit) × (w ≤ length row.old) }
    ensures { RackPowers gf257 l h w first i t row.new }
{
    let start = digit_point(l, i, 0, t);
    let z = root_power(t as usize);
    let at = group_digit(h, i);
    syndrome::digit_powers(row, l, w, first, at, start, z);
}

// Helper k's share of weight m in a block, each symbol times the m-th power of the helper's point, which is 1 where m is 0.
fn share_terms(
    cur: &mut [u16],
    l: Layout,
    h: u32,
    w: usize,
    first: usize,
    helpers: &[u32],
    shares: &[u16],
    e: u32,
    m: u32,
    k: usize,
    row: &mut [u16],
)
    requires { Sharing l h w first helpers.now shares.now e m cur.old row.old × (k < l.helpers) }
    ensures { ShareTerms gf257 l h w first helpers.now shares.now e m k cur.new }
{
    let at = codeword::cell(layout::group_count(l), k as u32 * e + m, first as u32);
    if m == 0 {
        kernel::copy(cur, 0, w, shares, at);
        return;
    }
    rack_powers(row, l, h, w, first, helpers[k], m);
    kernel::fill(cur, 0, w, 0);
    kernel::add_product(cur, 0, w, shares, at, row, 0);
}

// Adds helper k's part to the right sides of weight m.
fn add_share(
    sides: &mut [u16],
    l: Layout,
    h: u32,
    w: usize,
    first: usize,
    helpers: &[u32],
    shares: &[u16],
    e: u32,
    m: u32,
    k: usize,
    cur: &mut [u16],
    row: &mut [u16],
)
    requires { Sharing l h w first helpers.now shares.now e m cur.old row.old × (k < l.helpers) × (parity_racks l * w ≤ length sides.old) }
    ensures { ShareAdded gf257 l h w first helpers.now shares.now e m k sides.old sides.new }
{
    let u = l.size;
    let r = unknown_count(l) as usize;
    share_terms(cur, l, h, w, first, helpers, shares, e, m, k, row);
    rack_powers(row, l, h, w, first, helpers[k], u);
    syndrome::add_terms(sides, w, r, cur, row);
}

// The right sides of weight m.
fn block_sides(
    sides: &mut [u16],
    l: Layout,
    h: u32,
    w: usize,
    first: usize,
    helpers: &[u32],
    shares: &[u16],
    e: u32,
    m: u32,
    cur: &mut [u16],
    row: &mut [u16],
)
    requires { Sharing l h w first helpers.now shares.now e m cur.old row.old × (parity_racks l * w ≤ length sides.old) }
    ensures { SidesTo gf257 l h w first helpers.now shares.now e m l.helpers sides.new }
{
    kernel::fill(sides, 0, unknown_count(l) as usize * w, 0);
    for k in 0..helpers.len() {
        add_share(sides, l, h, w, first, helpers, shares, e, m, k, cur, row);
    }
}

// The points of unknown i: the host's for a digit, or those of another rack.
fn unknown_row(
    points: &mut [u16],
    l: Layout,
    h: u32,
    w: usize,
    first: usize,
    helpers: &[u32],
    v: usize,
    run: usize,
    i: usize,
    row: &mut [u16],
)
    requires { Pointed l h w first helpers.now v run points.old row.old × (i < parity_racks l) }
    ensures { PointRow gf257 l h first helpers.now v run i points.old points.new }
{
    let u = l.size;
    let s = layout::digit_count(l);
    let x = free_place(s, h, helpers, i as u32);
    if x < s {
        let p = digit_point(l, h, x, u);
        kernel::fill(points, i * v, v, p);
        return;
    }
    rack_powers(row, l, h, w, first, skipped(h, x - s), u);
    kernel::sample(points, i * v, v, row, run);
}

// The points of all unknowns.
pub fn unknown_points(
    points: &mut [u16],
    l: Layout,
    h: u32,
    w: usize,
    first: usize,
    helpers: &[u32],
    v: usize,
    run: usize,
    row: &mut [u16],
)
    requires { Pointed l h w first helpers.now v run points.old row.old }
    ensures { PointsTo gf257 l h first helpers.now v run (parity_racks l) points.new }
{
    let n = unknown_count(l) as usize;
    for i in 0..n {
        unknown_row(points, l, h, w, first, helpers, v, run, i, row);
    }
}

// The host's unknowns of every group, which come first, by so many columns.
fn solve_columns(
    found: &mut [u16],
    l: Layout,
    h: u32,
    w: usize,
    first: usize,
    helpers: &[u32],
    v: usize,
    run: usize,
    sides: &[u16],
    points: &mut [u16],
    coefs: &mut [u16],
    row: &mut [u16],
)
    requires { Chosen l h helpers.now × Groups l w first × Cycle gf257 l h w first helpers.now v run
        × Workspace l w sides.now found.old points.old coefs.old row.old }
    ensures { FoundSums gf257 l h w first helpers.now sides.now found.new }
{
    let n = unknown_count(l) as usize;
    let s = layout::digit_count(l) as usize;
    unknown_points(points, l, h, w, first, helpers, v, run, row);
    columns::solve_first(found, w, v, run, 1, n, s, sides, points, coefs, row);
}

// The host's unknowns of every group. Where every other rack helps, there are no others, and their points are alike in all groups.
fn solve_sides(
    found: &mut [u16],
    l: Layout,
    h: u32,
    w: usize,
    first: usize,
    helpers: &[u32],
    sides: &[u16],
    points: &mut [u16],
    coefs: &mut [u16],
    row: &mut [u16],
)
    requires { Chosen l h helpers.now × Groups l w first × Workspace l w sides.now found.old points.old coefs.old row.old }
    ensures { FoundSums gf257 l h w first helpers.now sides.now found.new }
{
    let b = l.racks;
    let d = l.helpers;
    if d + 1 == b {
        solve_columns(
            found, l, h, w, first, helpers, 1, w, sides, points, coefs, row,
        );
        return;
    }
    solve_columns(
        found, l, h, w, first, helpers, w, 1, sides, points, coefs, row,
    );
}

// Row q of the sums: row a of what was found, times v.
fn times_row(sums: &mut [u16], w: usize, q: usize, found: &[u16], a: usize, v: u16)
    requires { (q * w + w ≤ length sums.old) × (a * w + w ≤ length found.now) }
    ensures { RowTimes gf257 w q a v found.now sums.old sums.new }
{
    kernel::fill(sums, q * w, w, 0);
    kernel::add_multiple(sums, q * w, w, found, a * w, v);
}

// Less the host's sums of weight m: what was found, divided by the m-th powers of the host's points.
fn weigh_sums(sums: &mut [u16], l: Layout, h: u32, w: usize, e: u32, m: u32, found: &[u16])
    requires { Weighing l h w e m found.now sums.old }
    ensures { Weighed gf257 l h w m (digits l) found.now sums.old sums.new }
{
    let s = layout::digit_count(l);
    for a in 0..s {
        let v = difference(0, Symbol(digit_point(l, h, a, m)).inverse().0);
        times_row(sums, w, (m * s + a) as usize, found, a as usize, v);
    }
}

// The host's sums of weight m, after those of the weights below.
fn weight_sums(
    sums: &mut [u16],
    l: Layout,
    h: u32,
    w: usize,
    first: usize,
    helpers: &[u32],
    shares: &[u16],
    e: u32,
    m: u32,
    sides: &mut [u16],
    found: &mut [u16],
    points: &mut [u16],
    coefs: &mut [u16],
    row: &mut [u16],
    cur: &mut [u16],
)
    requires { Summing l h w first helpers.now shares.now e sums.old sides.old found.old points.old coefs.old row.old cur.old × (m < e)
        × SumsTo gf257 l h w first helpers.now shares.now e m sums.old }
    ensures { SumsTo gf257 l h w first helpers.now shares.now e (m + 1) sums.new }
{
    block_sides(sides, l, h, w, first, helpers, shares, e, m, cur, row);
    solve_sides(found, l, h, w, first, helpers, sides, points, coefs, row);
    weigh_sums(sums, l, h, w, e, m, found);
}

// The host's rack sums of every weight. The buffers after `e` are room.
pub fn block_sums(
    sums: &mut [u16],
    l: Layout,
    h: u32,
    w: usize,
    first: usize,
    helpers: &[u32],
    shares: &[u16],
    e: u32,
    sides: &mut [u16],
    found: &mut [u16],
    points: &mut [u16],
    coefs: &mut [u16],
    row: &mut [u16],
    cur: &mut [u16],
)
    requires { Summing l h w first helpers.now shares.now e sums.old sides.old found.old points.old coefs.old row.old cur.old }
    ensures { SumsTo gf257 l h w first helpers.now shares.now e e sums.new }
{
    for m in 0..e {
        weight_sums(
            sums, l, h, w, first, helpers, shares, e, m, sides, found, points, coefs, row, cur,
        );
    }
}
