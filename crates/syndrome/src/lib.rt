// Checks of a block of layers at a time: the points of a tray in consecutive layers, or of a rack in consecutive groups, and the sums of the checks over the
// trays that are not listed. A row of the sums has a check, and a column a layer of the block.
#![tactic(auto)]

ghost use Rattle.std.specs.Prelude.{◌≡◌, ℕ, ◌+◌, ◌*◌, ◌/◌, ◌^◌, ◌<◌, ◌≤◌, length};
ghost use Rattle.kernel.specs.Inner.{Run};
ghost use Rattle.layout.specs.Layout.{trays, digits, layers};
ghost use Rattle.blocks.specs.Inner.{Block};
ghost use Rattle.syndrome.specs.Inner.{Listed, Room, power_run, DigitPowers, TrayPoints, Terms, Later, TrayTerms, KeptTerms, Sums};

use field::FieldNumber;
use layout::Layout;

// s runs of equal symbols, each run z times the one before.
fn power_runs<N: FieldNumber>(row: &mut [N], run: usize, s: usize, first: N, z: N)
    requires { (s * run ≤ length row.old) × (0 < run) }
    ensures { Run (power_run N.field (N.code z) (N.code first) run) (N.codes row.old) (N.codes row.new) 0 (s * run) }
{
    let mut v = first;
    for a in 0..s {
        kernel::fill(row, a * run, run, v);
        v = v.product(z);
    }
}

// A symbol times z to the power of digit i, which runs through the block.
fn repeated_powers<N: FieldNumber>(
    row: &mut [N],
    l: Layout,
    w: usize,
    first: usize,
    i: u32,
    run: usize,
    start: N,
    z: N,
)
    requires { Block l w first × (w ≤ length row.old) × (run ≡ digits l ^ i) × (run < w) }
    ensures { DigitPowers N.field l w first i (N.code start) (N.code z) (N.codes row.new) }
{
    let s = layout::digit_count(l) as usize;
    power_runs(row, run, s, start, z);
    kernel::extend(row, s * run, w / (s * run));
}

// A symbol times z to the power of digit i, for each number of a block: of layers, or of groups.
pub fn digit_powers<N: FieldNumber>(
    row: &mut [N],
    l: Layout,
    w: usize,
    first: usize,
    i: u32,
    start: N,
    z: N,
)
    requires { Block l w first × (i < l.racks) × (w ≤ length row.old) }
    ensures { DigitPowers N.field l w first i (N.code start) (N.code z) (N.codes row.new) }
{
    let run = blocks::block_width(l, i);
    if run < w {
        repeated_powers(row, l, w, first, i, run, start, z);
        return;
    }
    let s = layout::digit_count(l);
    let a = layout::digit_at(s, first as u32, i);
    let v = z.power(a).product(start);
    kernel::fill(row, 0, w, v);
}

// The points of tray x in the layers of a block.
pub fn tray_points<N: FieldNumber>(row: &mut [N], l: Layout, w: usize, first: usize, x: u32)
    requires { Block l w first × (x < trays l) × (w ≤ length row.old) }
    ensures { TrayPoints N.field l w first x (N.codes row.new) }
{
    let u = l.size;
    let p = points::point_power(l, x, 0, 1);
    digit_powers(row, l, w, first, x / u, p, N::root_power(1));
}

// Adds the terms of a tray to the checks from 1 on: its symbols times the powers of its points.
fn later_terms<N: FieldNumber>(sums: &mut [N], w: usize, r: usize, cur: &mut [N], row: &[N])
    requires { Room w r sums.old cur.old row.now × (0 < r) }
    ensures { Later N.field w r (N.codes row.now) (N.codes cur.old) (N.codes sums.old) (N.codes sums.new) }
{
    for t in 1..r {
        kernel::accrue(sums, t * w, w, cur, row);
    }
}

// Adds the terms of a tray to the first r checks.
pub fn add_terms<N: FieldNumber>(sums: &mut [N], w: usize, r: usize, cur: &mut [N], row: &[N])
    requires { Room w r sums.old cur.old row.now }
    ensures { Terms N.field w r (N.codes row.now) (N.codes cur.old) (N.codes sums.old) (N.codes sums.new) }
{
    if r == 0 {
        return;
    }
    kernel::add(sums, 0, w, cur, 0);
    later_terms(sums, w, r, cur, row);
}

// Adds the terms of tray x of a codeword. Check 0 needs no points.
fn tray_terms<N: FieldNumber>(
    sums: &mut [N],
    l: Layout,
    w: usize,
    first: usize,
    r: usize,
    c: &[N],
    x: u32,
    cur: &mut [N],
    row: &mut [N],
)
    requires { Block l w first × Room w r sums.old cur.old row.old × (length c.now ≡ trays l * layers l) × (x < trays l) }
    ensures { TrayTerms N.field l w first r (N.codes c.now) x (N.codes sums.old) (N.codes sums.new) }
{
    let total = layout::layer_count(l) as usize;
    kernel::copy(cur, 0, w, c, x as usize * total + first);
    if r < 2 {
        add_terms(sums, w, r, cur, row);
        return;
    }
    tray_points(row, l, w, first, x);
    add_terms(sums, w, r, cur, row);
}

// Adds them unless the tray is listed: its symbols are not looked at.
fn kept_terms<N: FieldNumber>(
    sums: &mut [N],
    l: Layout,
    w: usize,
    first: usize,
    r: usize,
    c: &[N],
    es: &[u32],
    x: u32,
    cur: &mut [N],
    row: &mut [N],
)
    requires { Block l w first × Room w r sums.old cur.old row.old × (length c.now ≡ trays l * layers l) × Listed l es.now × (x < trays l) }
    ensures { KeptTerms N.field l w first r (N.codes c.now) es.now x (N.codes sums.old) (N.codes sums.new) }
{
    if !lists::is_absent(es, x) {
        return;
    }
    tray_terms(sums, l, w, first, r, c, x, cur, row);
}

// The first r checks of a block's layers, over the trays that are not listed.
pub fn sum_kept<N: FieldNumber>(
    sums: &mut [N],
    l: Layout,
    w: usize,
    first: usize,
    r: usize,
    c: &[N],
    es: &[u32],
    cur: &mut [N],
    row: &mut [N],
)
    requires { Block l w first × Room w r sums.old cur.old row.old × (length c.now ≡ trays l * layers l) × Listed l es.now }
    ensures { Sums N.field l w first r (N.codes c.now) es.now (trays l) (N.codes sums.new) }
{
    kernel::fill(sums, 0, r * w, N::zero());
    for x in 0..layout::tray_count(l) {
        kept_terms(sums, l, w, first, r, c, es, x, cur, row);
    }
}
