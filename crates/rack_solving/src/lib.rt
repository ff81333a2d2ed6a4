// A block of layers solved for the trays listed, by rack sums where these are whole racks of three or five: the checks u·p + m are then a system for the racks' sums of
// weight m alone, so that there are u systems with an unknown for each rack in place of one with an unknown for each tray, and the symbols of a rack follow from its
// sums. The first field's alone, as `weigh` is. `solve_block` promises what that of `solving` promises, and is that where the list is not of whole racks.
#![tactic(auto)]

ghost use Rattle.std.specs.Prelude.{◌≡◌, true, ◌+◌, ◌-◌, ◌*◌, ◌^◌, ◌<◌, ◌≤◌, length};
ghost use Rattle.algebra.specs.Points.{opposite};
ghost use Rattle.symbol.specs.Elem.{gf256};
ghost use Rattle.columns.specs.Inner.{Solved};
ghost use Rattle.weigh.specs.Inner.{Weighed};
ghost use Rattle.layout.specs.Layout.{Cabinet, trays, digits};
ghost use Rattle.blocks.specs.Inner.{room_limit, Block};
ghost use Rattle.syndrome.specs.Inner.{Listed};
ghost use Rattle.rack_checks.specs.Inner.{Small};
ghost use Rattle.solving.specs.Inner.{Columns, Workspace, FoundBlock};
ghost use Rattle.rack_solving.specs.Inner.{Bytes, RackTo, WholeRacks, PowerRow, RackPoints, Wide, RowLowered, Lowered, RackFound, RacksFound};

use layout::Layout;
use symbol::plain::{ORDER, root_power};

// Whether the entries of rack i of the list are all places of one rack, in order.
fn is_rack(l: Layout, es: &[u32], i: usize) -> bool
    requires { Cabinet l × Listed l es.now × (i * l.size + l.size ≤ length es.now) }
    ensures { result ≡ true → RackTo l.size es.now i l.size }
{
    let u = l.size;
    let k = i * u as usize;
    let x = es[k];
    if x % u != 0 {
        return false;
    }
    for g in 1..u {
        if es[k + g as usize] != x + g {
            return false;
        }
    }
    true
}

// Whether the list is n whole racks, one or more, of three trays or five.
fn are_racks(l: Layout, es: &[u32], n: usize) -> bool
    requires { Cabinet l × Listed l es.now × (n * l.size ≤ length es.now) }
    ensures { result ≡ true → Small l.size × WholeRacks l.size n es.now }
{
    let u = l.size as usize;
    if !rack_checks::small(l.size) {
        return false;
    }
    if n == 0 {
        return false;
    }
    if es.len() != n * u {
        return false;
    }
    for i in 0..n {
        if !is_rack(l, es, i) {
            return false;
        }
    }
    true
}

// The u-th powers of the points of tray x.
fn power_row(row: &mut [u8], l: Layout, w: usize, first: usize, x: u32)
    requires { Block l w first × Small l.size × (x < trays l) × (w ≤ length row.old) }
    ensures { PowerRow gf256 l w first x row.new }
{
    let u = l.size;
    let p = points::point_power(l, x, 0, u);
    syndrome::digit_powers(row, l, w, first, x / u, p, root_power(u as usize));
}

// Those of the n racks listed, one for each run of layers.
fn rack_points(
    points: &mut [u8],
    l: Layout,
    w: usize,
    first: usize,
    es: &[u32],
    n: usize,
    v: usize,
    run: usize,
    row: &mut [u8],
)
    requires { Columns l w first es.now v run points.old row.old × Small l.size × WholeRacks l.size n es.now }
    ensures { RackPoints gf256 l first es.now v run n points.new }
{
    let u = l.size as usize;
    for i in 0..n {
        power_row(row, l, w, first, es[i * u]);
        kernel::sample(points, i * v, v, row, run);
    }
}

// The racks' sums of all weights, each times a power of the rack's point, by one system whose rows are u blocks wide: row p has the checks u·p .. u·p + u - 1.
fn weighted_sums(
    ys: &mut [u8],
    u: usize,
    w: usize,
    n: usize,
    v: usize,
    run: usize,
    turns: usize,
    sums: &[u8],
    points: &[u8],
    coefs: &mut [u8],
    wide: &mut [u8],
)
    requires { Wide u w n v run turns ys.old sums.now points.now coefs.old wide.old }
    ensures { Solved gf256 (u * w) v run n sums.now points.now ys.new n }
{
    if v == 1 {
        columns::solve(ys, u * w, v, u * w, 1, n, sums, points, coefs, wide);
        return;
    }
    columns::solve(ys, u * w, v, run, turns * u, n, sums, points, coefs, wide);
}

// Row k divided by the power of its rack's point that it comes with.
fn lower_row(ys: &mut [u8], l: Layout, w: usize, first: usize, es: &[u32], k: usize, row: &mut [u8])
    requires { Block l w first × Small l.size × Listed l es.now × (k < length es.now) × (k * w + w ≤ length ys.old) × (w ≤ length row.old) }
    ensures { RowLowered gf256 l w first es.now k ys.old ys.new }
{
    let u = l.size;
    let m = k % u as usize;
    if m == 0 {
        return;
    }
    let s = layout::digit_count(l);
    let i = es[k] / u;
    let e = ORDER - m;
    let p = root_power(e * (i * s) as usize);
    syndrome::digit_powers(row, l, w, first, i, p, root_power(e));
    columns::runs::scale(ys, k * w, w, row, 0);
}

// All rows.
fn lower_rows(ys: &mut [u8], l: Layout, w: usize, first: usize, es: &[u32], row: &mut [u8])
    requires { Block l w first × Small l.size × Listed l es.now × (length es.now * w ≤ length ys.old) × (w ≤ length row.old) }
    ensures { Lowered gf256 l w first es.now (length es.now) ys.old ys.new }
{
    for k in 0..es.len() {
        lower_row(ys, l, w, first, es, k, row);
    }
}

// The sums over the rows of a rack, each times a power of a place's factor, from those with the power before.
fn weigh_rows(row: &mut [u8], u: u32, w: usize, ys: &[u8], from: usize, m: u32)
    requires { Small u × (m < u) × (from + u * w ≤ length ys.now) × (w ≤ length row.old) × (0 < m → Weighed gf256 u (m - 1) ys.now from w w row.old) }
    ensures { Weighed gf256 u m ys.now from w w row.new }
{
    if u == 3 {
        weigh::weigh_three(row, w, ys, from, w, m);
        return;
    }
    weigh::weigh_five(row, w, ys, from, w, m);
}

// u - m, and 0 for 0.
fn opposite_place(u: u32, m: u32) -> u32
    requires { m < u }
    ensures answer { result ≡ opposite u m }
    ensures below { result < u }
{
    if m == 0 { 0 } else { u - m }
}

// The symbols of rack i of the list from its sums of all weights: W3's formula over the places of the rack, where the factors of the products of differences are the opposite
// powers (`place_factor` in algebra/proofs/Places.antt).
fn rack_symbols(found: &mut [u8], u: u32, w: usize, i: usize, ys: &[u8], row: &mut [u8])
    requires { Small u × (0 < w) × ((i * u + u) * w ≤ length found.old) × ((i * u + u) * w ≤ length ys.now) × (w ≤ length row.old) }
    ensures { RackFound gf256 u w i ys.now found.old found.new u }
{
    let from = i * u as usize * w;
    for m in 0..u {
        weigh_rows(row, u, w, ys, from, m);
        kernel::copy(found, from + opposite_place(u, m) as usize * w, w, row, 0);
    }
}

// Those of all n racks.
fn racks_symbols(found: &mut [u8], u: u32, w: usize, n: usize, ys: &[u8], row: &mut [u8])
    requires { Small u × (0 < w) × (n * u * w ≤ length found.old) × (n * u * w ≤ length ys.now) × (w ≤ length row.old) }
    ensures { RacksFound gf256 u w n ys.now found.new × Bytes found.new }
{
    for i in 0..n {
        rack_symbols(found, u, w, i, ys, row);
    }
}

// The symbols of n whole racks that make up for the sums of a block; `ys` and `wide` are room for its rows.
fn solve_rows(
    found: &mut [u8],
    l: Layout,
    e: u32,
    w: usize,
    first: usize,
    es: &[u32],
    n: usize,
    sums: &[u8],
    points: &mut [u8],
    coefs: &mut [u8],
    row: &mut [u8],
    ys: &mut [u8],
    wide: &mut [u8],
)
    requires { Block l w first × (e ≤ l.racks) × (w ≡ digits l ^ e) × Listed l es.now × Workspace l w sums.now found.old points.old coefs.old row.old
        × Small l.size × WholeRacks l.size n es.now × (room_limit ≤ length ys.old) × (room_limit ≤ length wide.old) }
    ensures { FoundBlock gf256 l w first es.now sums.now found.new }
{
    let u = l.size;
    let p = blocks::cycle_of(l, e, es);
    let v = p.columns;
    let run = p.run;
    let turns = p.turns;
    rack_points(points, l, w, first, es, n, v, run, row);
    weighted_sums(
        ys, u as usize, w, n, v, run, turns, sums, points, coefs, wide,
    );
    lower_rows(ys, l, w, first, es, row);
    racks_symbols(found, u, w, n, ys, row);
}

// The same with that room.
fn solve_racks(
    found: &mut [u8],
    l: Layout,
    e: u32,
    w: usize,
    first: usize,
    es: &[u32],
    n: usize,
    sums: &[u8],
    points: &mut [u8],
    coefs: &mut [u8],
    row: &mut [u8],
)
    requires { Block l w first × (e ≤ l.racks) × (w ≡ digits l ^ e) × Listed l es.now × Workspace l w sums.now found.old points.old coefs.old row.old
        × Small l.size × WholeRacks l.size n es.now }
    ensures { FoundBlock gf256 l w first es.now sums.now found.new }
{
    let mut ys = [0u8; blocks::ROOM];
    let mut wide = [0u8; blocks::ROOM];
    solve_rows(
        found, l, e, w, first, es, n, sums, points, coefs, row, &mut ys, &mut wide,
    );
}

// The symbols of the trays listed that make up for the sums of a block.
pub fn solve_block(
    found: &mut [u8],
    l: Layout,
    e: u32,
    w: usize,
    first: usize,
    es: &[u32],
    sums: &[u8],
    points: &mut [u8],
    coefs: &mut [u8],
    row: &mut [u8],
)
    requires { Block l w first × (e ≤ l.racks) × (w ≡ digits l ^ e) × Listed l es.now × Workspace l w sums.now found.old points.old coefs.old row.old }
    ensures { FoundBlock gf256 l w first es.now sums.now found.new }
{
    let u = l.size;
    let n = es.len() / u as usize;
    if are_racks(l, es, n) {
        solve_racks(found, l, e, w, first, es, n, sums, points, coefs, row);
        return;
    }
    solving::solve_block(found, l, e, w, first, es, sums, points, coefs, row);
}
