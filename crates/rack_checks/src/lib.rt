// The sums of the checks over the trays that are not listed, by racks: check t = u·p + m of a layer speaks only of the rack sums of weight m, so that one step a
// rack and check is done and not one a tray and check. The steps go from the highest rack down, by Horner's rule. `sum_kept` promises what that of `syndrome`
// promises, and goes tray after tray where that takes fewer instructions.
#![tactic(auto)]

pub mod fields;

ghost use Rattle.std.specs.Prelude.{◌≡◌, true, ◌+◌, ◌*◌, ◌/◌, ◌<◌, ◌≤◌, length};
ghost use Rattle.symbol.specs.Elem.{gf256};
ghost use Rattle.layout.specs.Layout.{Cabinet, trays, layers, tray_limit};
ghost use Rattle.blocks.specs.Inner.{Block};
ghost use Rattle.syndrome.specs.Inner.{Listed, Room, DigitPowers, Sums};
ghost use Rattle.rack_checks.specs.Inner.{ListedFrom, Kept, Small, Readable, ByRacks, PlaceAdded, PlaceSums, LastSums, Raised, WeightRaised, RackRaised};

use layout::Layout;
use symbol::plain::ROOT;

// The least tray from which on all are listed.
fn listed_from(es: &[u32], n: u32) -> u32
    ensures { (result ≤ n) × ListedFrom es.now result n }
{
    for x in (0..n).rev() {
        if lists::is_absent(es, x) {
            return x + 1;
        }
    }
    0
}

// The racks below those of which all trays are listed.
fn racks_kept(l: Layout, es: &[u32]) -> u32
    requires { Cabinet l }
    ensures { (result ≤ l.racks) × ListedFrom es.now (result * l.size) (trays l) }
{
    listed_from(es, layout::tray_count(l)).div_ceil(l.size)
}

// Adds the symbols of rack i's place g to a row, times a power of the place's factor, unless the tray is listed: its bytes are not looked at.
fn add_place(
    cur: &mut [u8],
    l: Layout,
    w: usize,
    first: usize,
    total: usize,
    c: &[u8],
    es: &[u32],
    i: u32,
    m: u32,
    g: u32,
)
    requires { Block l w first × (w ≤ length cur.old) × Readable l total c.now × Listed l es.now × (i < l.racks) × (m < l.size) × (g < l.size) }
    ensures { PlaceAdded gf256 l w first c.now es.now i m g cur.old cur.new }
{
    let u = l.size;
    let x = i * u + g;
    if !lists::is_absent(es, x) {
        return;
    }
    let at = x as usize * total + first;
    let v = points::place_power(l, g, m);
    if v == 1 {
        kernel::add(cur, 0, w, c, at);
        return;
    }
    kernel::add_multiple(cur, 0, w, c, at, v);
}

// The rack sums of weight m, place after place.
fn sum_places(
    cur: &mut [u8],
    l: Layout,
    w: usize,
    first: usize,
    total: usize,
    c: &[u8],
    es: &[u32],
    i: u32,
    m: u32,
)
    requires { Block l w first × (w ≤ length cur.old) × Readable l total c.now × Listed l es.now × (i < l.racks) × (m < l.size) }
    ensures { PlaceSums gf256 l w first c.now es.now i m l.size cur.new }
{
    kernel::fill(cur, 0, w, 0);
    for g in 0..l.size {
        add_place(cur, l, w, first, total, c, es, i, m, g);
    }
}

// Whether none of n trays from x on is listed.
fn all_kept(es: &[u32], x: u32, n: u32) -> bool
    requires { x + n ≤ tray_limit }
    ensures { result ≡ true → Kept es.now x n }
{
    (x..x + n).all(|y| lists::is_absent(es, y))
}

// The rack sums of weight m from those of weight m - 1, at once where no tray of the rack is listed.
fn rack_sum(
    cur: &mut [u8],
    l: Layout,
    w: usize,
    first: usize,
    total: usize,
    c: &[u8],
    es: &[u32],
    i: u32,
    m: u32,
)
    requires { Block l w first × (w ≤ length cur.old) × Readable l total c.now × Listed l es.now × (i < l.racks) × (m < l.size) × LastSums gf256 l w first c.now es.now i m cur.old }
    ensures { PlaceSums gf256 l w first c.now es.now i m l.size cur.new }
{
    let u = l.size;
    if !all_kept(es, i * u, u) {
        sum_places(cur, l, w, first, total, c, es, i, m);
        return;
    }
    if u == 3 {
        weigh::weigh_three(cur, w, c, (i * u) as usize * total + first, total, m);
        return;
    }
    if u == 5 {
        weigh::weigh_five(cur, w, c, (i * u) as usize * total + first, total, m);
        return;
    }
    sum_places(cur, l, w, first, total, c, es, i, m);
}

// One step of check t: rack i's symbols, each where its digit puts it.
fn raise_check(
    sums: &mut [u8],
    l: Layout,
    w: usize,
    first: usize,
    i: u32,
    t: usize,
    cur: &[u8],
    row: &[u8],
)
    requires { Block l w first × (t * w + w ≤ length sums.old) × (w ≤ length cur.now) × (w ≤ length row.now) × DigitPowers gf256 l w first i 1 2 row.now }
    ensures { Raised gf256 l w first i t cur.now sums.old sums.new }
{
    if t == 0 {
        kernel::add(sums, 0, w, cur, 0);
        return;
    }
    let s = layout::digit_count(l);
    horner::steps(sums, t * w, w, cur, row, s, t);
}

// The checks of weight m: m, m + u, and so on.
fn raise_weight(
    sums: &mut [u8],
    l: Layout,
    w: usize,
    first: usize,
    r: usize,
    i: u32,
    m: u32,
    cur: &[u8],
    row: &[u8],
)
    requires { Block l w first × (r * w ≤ length sums.old) × (w ≤ length cur.now) × (w ≤ length row.now) × (r ≤ tray_limit) × (m < l.size) × DigitPowers gf256 l w first i 1 2 row.now }
    ensures { WeightRaised gf256 l w first r i m cur.now sums.old sums.new }
{
    for t in (m as usize..r).step_by(l.size as usize) {
        raise_check(sums, l, w, first, i, t, cur, row);
    }
}

// All checks by rack i.
fn raise_rack(
    sums: &mut [u8],
    l: Layout,
    w: usize,
    first: usize,
    total: usize,
    r: usize,
    c: &[u8],
    es: &[u32],
    i: u32,
    cur: &mut [u8],
    row: &mut [u8],
)
    requires { Block l w first × (r * w ≤ length sums.old) × (w ≤ length cur.old) × (w ≤ length row.old) × (r ≤ tray_limit) × Readable l total c.now × Listed l es.now × (i < l.racks) }
    ensures { RackRaised gf256 l w first r c.now es.now i sums.old sums.new }
{
    syndrome::digit_powers(row, l, w, first, i, 1, ROOT);
    for m in 0..l.size.min(r as u32) {
        rack_sum(cur, l, w, first, total, c, es, i, m);
        raise_weight(sums, l, w, first, r, i, m, cur, row);
    }
}

// The first r checks of a block's layers, over the trays that are not listed: racks from h on have none.
fn sum_racks(
    sums: &mut [u8],
    l: Layout,
    w: usize,
    first: usize,
    r: usize,
    c: &[u8],
    es: &[u32],
    h: u32,
    cur: &mut [u8],
    row: &mut [u8],
)
    requires { Block l w first × Room w r sums.old cur.old row.old × (length c.now ≡ trays l * layers l) × Listed l es.now × ByRacks gf256 l h r es.now }
    ensures { Sums gf256 l w first r c.now es.now (trays l) sums.new }
{
    let total = layout::layer_count(l) as usize;
    kernel::fill(sums, 0, r * w, 0);
    for i in (0..h).rev() {
        raise_rack(sums, l, w, first, total, r, c, es, i, cur, row);
    }
}

// Whether racks have three trays or five.
pub fn small(u: u32) -> bool
    ensures { result ≡ true → Small u }
{
    matches!(u, 3 | 5)
}

// What a step costs, in doublings beside its own, and what a product costs.
const STEP: usize = 4;

const PRODUCT: usize = 21;

// Whether the way by h racks takes fewer instructions than that by the trays kept: for each check and digit of a rack a step of some doublings, for each check
// of a tray a product.
fn by_racks(l: Layout, h: u32, r: usize, lost: usize) -> bool
    requires { Cabinet l × (h ≤ l.racks) × (lost ≤ trays l) }
    ensures { result ≡ true → (r ≤ tray_limit) × (l.size * (gf256.order / l.size) ≡ gf256.order) }
{
    if (layout::TRAYS as usize) < r {
        return false;
    }
    if !small(l.size) {
        return false;
    }
    let s = layout::digit_count(l) as usize;
    let kept = layout::tray_count(l) as usize - lost;
    h as usize * s * (r + STEP) < PRODUCT * kept
}

// The first r checks of a block's layers, over the trays that are not listed.
pub fn sum_kept(
    sums: &mut [u8],
    l: Layout,
    w: usize,
    first: usize,
    r: usize,
    c: &[u8],
    es: &[u32],
    cur: &mut [u8],
    row: &mut [u8],
)
    requires { Block l w first × Room w r sums.old cur.old row.old × (length c.now ≡ trays l * layers l) × Listed l es.now }
    ensures { Sums gf256 l w first r c.now es.now (trays l) sums.new }
{
    let h = racks_kept(l, es);
    if by_racks(l, h, r, es.len()) {
        sum_racks(sums, l, w, first, r, c, es, h, cur, row);
        return;
    }
    syndrome::sum_kept(sums, l, w, first, r, c, es, cur, row);
}
