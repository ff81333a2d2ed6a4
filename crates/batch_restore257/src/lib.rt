// Made by tools/twin.py from crates/batch_restore/src/lib.rt.
// Erased trays of many codewords worked out from the others, layer after layer: the factors of a layer once for all codewords, then sums of rows, a block of
// codewords at a time. Promises of every codeword the symbols that the checks determine (restore/specs/Inner.antt). Never looks at the old symbols of the
// trays listed.
#![tactic(auto)]

ghost use Rattle.std.specs.Prelude.{◌≡◌, ℕ, ◌+◌, ◌*◌, ◌<◌, ◌≤◌, length, get_or};
ghost use Rattle.lists.specs.Lists.{table};
ghost use Rattle.algebra.specs.Group.{skip, free};
ghost use Rattle.symbol257.specs.Elem.{gf257};
ghost use Rattle.layout.specs.Layout.{trays, layers, tray_limit, Cabinet};
ghost use Rattle.batch_kernel.specs.Wide.{weight_at, Ready};
ghost use Rattle.batch_restore.specs.Inner.{lanes_of, eights_of, Complement, Lists, Job, ListPoints, Pointing, LayerWeights, Padded, Placed, Sums, BlockSums};
ghost use Rattle.batch_restore.specs.Inner.{Outputs, Trays, Wide, PutRows, BlockTo, LayerTo, BatchTo, Restoring, Restored};

use batch_kernel::BatchSums;
use layout::Layout;

// The most trays, in whole vectors.
const TRAYS: usize = 64;

// The most factors of a layer, and the numbers that they are made ready as.
const FACTORS: usize = 1536;

const READY: usize = 3072;

// The output rows of a block.
const ROWS: usize = 7680;

// The next multiple of sixteen.
pub fn lanes(s: usize) -> usize
    requires { s ≤ tray_limit }
    ensures { result ≡ lanes_of s }
{
    (s + 15) / 16 * 16
}

// How many times eight are enough.
fn eights(n: usize) -> usize
    requires { n ≤ tray_limit }
    ensures { result ≡ eights_of n }
{
    (n + 7) / 8
}

// The number after x, unless x is below q.
fn skipped(q: u32, x: u32) -> u32
    requires { x ≤ 2 * tray_limit }
    ensures { result ≡ skip q x }
{
    if x < q {
        return x;
    }
    x + 1
}

// The tray of number i among those that are not listed.
fn other(es: &[u32], i: u32) -> u32
    requires { (length es.now ≤ tray_limit) × (i ≤ tray_limit) }
    ensures { result ≡ free (λ k. get_or es.now k 0) (length es.now) i }
{
    let mut x = i;
    for q in es {
        x = skipped(*q, x);
    }
    x
}

// The trays that are not listed.
pub fn others(ks: &mut [u32], es: &[u32])
    requires { (length es.now ≤ tray_limit) × (length ks.old ≤ tray_limit) }
    ensures { ks.new ≡ table (free (λ k. get_or es.now k 0) (length es.now)) (length ks.old) }
{
    for (i, k) in ks.iter_mut().enumerate() {
        *k = other(es, i as u32);
    }
}

// The points of the trays of a list in layer j.
fn list_points(p: &mut [u16], l: Layout, j: u32, list: &[u32])
    requires { Pointing l list.now p.old }
    ensures { ListPoints gf257 l j list.now (length list.now) p.old p.new }
{
    for (t, x) in list.iter().enumerate() {
        let v = points::point_power(l, *x, j, 1);
        kernel::fill(p, t, 1, v);
    }
}

// The factors of layer j made ready, with room for points and factors.
fn layer_factors(
    picks: &mut [u16],
    l: Layout,
    j: u32,
    es: &[u32],
    ks: &[u32],
    p: &mut [u16],
    points: &mut [u16],
    g: &mut [u16],
    wide: usize,
)
    requires { Lists l es.now ks.now × (wide ≡ lanes_of (length es.now)) × (length picks.old ≡ 3072) × (length p.old ≡ 64) × (length points.old ≡ 64) × (length g.old ≡ 1536) }
    ensures ready { Ready picks.new wide (eights_of (length ks.now)) }
    ensures layer_weights { LayerWeights gf257 l j es.now ks.now (weight_at gf257 picks.new wide) }
{
    let n = ks.len();
    let count = eights(n);
    list_points(p, l, j, ks);
    list_points(points, l, j, es);
    kernel::fill(g, n * wide, (count * 8 - n) * wide, 0);
    batch_factors257::factors(g, wide, p, n, points, es.len());
    u16::prepare(picks, g, wide, count);
}

// The factors of layer j made ready.
pub fn factors(picks: &mut [u16], l: Layout, j: u32, es: &[u32], ks: &[u32], wide: usize)
    requires { Lists l es.now ks.now × (wide ≡ lanes_of (length es.now)) × (length picks.old ≡ 3072) }
    ensures ready { Ready picks.new wide (eights_of (length ks.now)) }
    ensures layer_weights { LayerWeights gf257 l j es.now ks.now (weight_at gf257 picks.new wide) }
{
    let mut p = [0u16; TRAYS];
    let mut points = [0u16; TRAYS];
    let mut g = [0u16; FACTORS];
    layer_factors(picks, l, j, es, ks, &mut p, &mut points, &mut g, wide);
}

// Where the rows of the known trays begin, the last one again until there are as many as the list has room for.
fn places(at: &mut [usize], ks: &[u32], gap: usize, first: usize)
    requires { (0 < length ks.now) × (length ks.now ≤ tray_limit) × (length at.old ≤ 64) × (first ≤ gap) × ((t : ℕ) → t < length ks.now → get_or ks.now t 0 * gap + gap < 18446744073709551616) }
    ensures { Placed ks.now gap first (length at.old) at.old at.new }
{
    for (t, place) in at.iter_mut().enumerate() {
        let i = lists::smaller(t as u64, (ks.len() - 1) as u64) as usize;
        *place = ks[i] as usize * gap + first;
    }
}

// Symbols that are worked out, in a block of w columns from the place `first` on of each tray's gap: rows of them from the number `row` on.
pub fn sum_block(
    acc: &mut [u16],
    rows: usize,
    w: usize,
    src: &[u16],
    ks: &[u32],
    gap: usize,
    first: usize,
    picks: &[u16],
    wide: usize,
    row: usize,
)
    requires { Sums rows w src.now ks.now gap first wide row acc.old × Ready picks.now wide (eights_of (length ks.now))
        × Padded gf257 (weight_at gf257 picks.now wide) ks.now (row + rows) }
    ensures { BlockSums gf257 (weight_at gf257 picks.now wide) src.now ks.now gap first w row rows acc.old acc.new }
{
    let n = eights(ks.len()) * 8;
    let mut at = [0usize; TRAYS];
    places(&mut at[..n], ks, gap, first);
    u16::sum_rows(acc, rows, w, src, &at[..n], picks, wide, row);
}

// Writes the rows of a block.
fn put_rows(c: &mut [u16], es: &[u32], gap: usize, first: usize, w: usize, acc: &[u16])
    requires { Outputs es.now gap c.old × (w ≤ 128) × (first + w ≤ gap) × (length es.now * 128 ≤ length acc.now) }
    ensures { PutRows es.now gap first w acc.now c.old c.new (length es.now) }
{
    for (o, x) in es.iter().enumerate() {
        kernel::copy(c, *x as usize * gap + first, w, acc, o * 128);
    }
}

// Works out and writes a block of codewords in one layer.
fn block(
    c: &mut [u16],
    es: &[u32],
    ks: &[u32],
    gap: usize,
    first: usize,
    w: usize,
    picks: &[u16],
    wide: usize,
    acc: &mut [u16],
)
    requires { Trays es.now ks.now gap c.old × Wide es.now wide acc.old × (w ≤ 128) × (first + w ≤ gap) × Ready picks.now wide (eights_of (length ks.now))
        × Padded gf257 (weight_at gf257 picks.now wide) ks.now (length es.now) }
    ensures { BlockTo gf257 (weight_at gf257 picks.now wide) es.now ks.now gap first w c.old c.new }
{
    sum_block(acc, es.len(), w, c, ks, gap, first, picks, wide, 0);
    put_rows(c, es, gap, first, w, acc);
}

// Block after block of m codewords.
fn blocks(
    c: &mut [u16],
    es: &[u32],
    ks: &[u32],
    gap: usize,
    first: usize,
    m: usize,
    picks: &[u16],
    wide: usize,
    acc: &mut [u16],
)
    requires { Trays es.now ks.now gap c.old × Wide es.now wide acc.old × (first + m ≤ gap) × Ready picks.now wide (eights_of (length ks.now))
        × Padded gf257 (weight_at gf257 picks.now wide) ks.now (length es.now) }
    ensures { BlockTo gf257 (weight_at gf257 picks.now wide) es.now ks.now gap first m c.old c.new }
{
    let mut b = 0usize;
    // Stays a `while`: the last block is as narrow as what is left, and its width is the step.
    while b < m {
        let w = lists::smaller(128, (m - b) as u64) as usize;
        block(c, es, ks, gap, first + b, w, picks, wide, acc);
        b += w;
    }
}

// Layer j of all codewords.
fn layer(
    c: &mut [u16],
    l: Layout,
    j: u32,
    total: usize,
    m: usize,
    es: &[u32],
    ks: &[u32],
    picks: &mut [u16],
    acc: &mut [u16],
)
    requires { Job l total m es.now ks.now c.old × Complement gf257 (trays l) es.now ks.now × (j < total) × (length picks.old ≡ 3072) × (length acc.old ≡ 7680) }
    ensures { LayerTo gf257 l total m es.now j c.old c.new }
{
    let wide = lanes(es.len());
    factors(picks, l, j, es, ks, wide);
    blocks(c, es, ks, total * m, j as usize * m, m, picks, wide, acc);
}

// Layer after layer.
fn all_layers(
    c: &mut [u16],
    l: Layout,
    total: u32,
    m: usize,
    es: &[u32],
    ks: &[u32],
    picks: &mut [u16],
    acc: &mut [u16],
)
    requires { Job l total m es.now ks.now c.old × Complement gf257 (trays l) es.now ks.now × (length picks.old ≡ 3072) × (length acc.old ≡ 7680) }
    ensures { BatchTo gf257 l total m es.now c.old total c.new }
{
    for j in 0..total {
        layer(c, l, j, total as usize, m, es, ks, picks, acc);
    }
}

// The same, with room for factors and output rows.
fn restore_from(c: &mut [u16], l: Layout, m: usize, es: &[u32], ks: &[u32])
    requires { Job l (layers l) m es.now ks.now c.old × Complement gf257 (trays l) es.now ks.now }
    ensures { Restored gf257 l m es.now c.old c.new }
{
    let total = layout::layer_count(l);
    let mut picks = [0u16; READY];
    let mut acc = [0u16; ROWS];
    all_layers(c, l, total, m, es, ks, &mut picks, &mut acc);
}

// The same, with room for the list of the other trays.
fn restore_listed(c: &mut [u16], l: Layout, m: usize, es: &[u32], ks: &mut [u32])
    requires { Restoring l m es.now c.old × (length ks.old + length es.now ≡ trays l) }
    ensures { Restored gf257 l m es.now c.old c.new }
{
    others(ks, es);
    restore_from(c, l, m, es, ks);
}

// Works out and writes the trays listed in each of m codewords, whatever the others hold.
pub fn restore(l: Layout, m: usize, c: &mut [u16], es: &[u32])
    requires { Restoring l m es.now c.old }
    ensures { Restored gf257 l m es.now c.old c.new }
{
    let n = layout::tray_count(l) as usize - es.len();
    let mut ks = [0u32; TRAYS];
    restore_listed(c, l, m, es, &mut ks[..n]);
}
