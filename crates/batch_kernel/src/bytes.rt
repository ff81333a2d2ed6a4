// The sums of rows of bytes, in the field of 256. Of each four input rows the sixteen sums of some of them are made once for a block of columns; for each bit of
// the factors, from the highest down, the sum so far is doubled and the sum that the bit picks is added, eight rows at a time (the method of the four Russians).
// No branch and no table in memory depends on a symbol.
ghost use Rattle.std.specs.Prelude.{◌≡◌, ℕ, ◌+◌, ◌*◌, ◌/◌, ◌%◌, ◌^◌, ◌<◌, ◌≤◌, length, get_or};
ghost use Rattle.symbol.specs.Elem.{gf256, z};
ghost use Rattle.kernel.specs.Inner.{Run, Standing};
ghost use Rattle.batch_kernel.specs.Inner.{two_of, sum_of, rung_at, ladder_at, climbed_at, pick_of, pick_at, Spots, Tabled, RowsAdded, EightAdded, Summed};
ghost use Rattle.batch_kernel.specs.Inner.{Summing, PickRoom, PickedRow, PickedFour, Prepared, Weighs, Laid};
ghost use Rattle.batch_kernel.specs.Ready.{weight_at, Column, Ready};

use crate::{BatchSums, WIDTH};
use symbol::Symbol;
use symbol::plain::sum;
use symbol::shift_add::twice;

// The sixteen sums of four rows.
const SUMS: usize = 2048;

// Those of eight rows.
const ROOM: usize = 4096;

// Four sums: v, and v plus one or both of two symbols.
fn quarter(tab: &mut [u8], to: usize, a: u8, b: u8, v: u8)
    requires { to + 384 < length tab.old }
    ensures { Spots gf256 (λ s. gf256.ops.add (gf256.coding.elem v) (two_of gf256 (gf256.coding.elem a) (gf256.coding.elem b) s)) tab.old tab.new to 4 }
{
    tab[to] = v;
    tab[to + 128] = sum(v, a);
    tab[to + 256] = sum(v, b);
    tab[to + 384] = sum(sum(v, a), b);
}

// The sixteen sums of four symbols, a block's width apart.
fn sixteen(tab: &mut [u8], to: usize, a: u8, b: u8, c: u8, d: u8)
    requires { to + 1920 < length tab.old }
    ensures { Spots gf256 (sum_of gf256 (gf256.coding.elem a) (gf256.coding.elem b) (gf256.coding.elem c) (gf256.coding.elem d)) tab.old tab.new to 16 }
{
    quarter(tab, to, a, b, 0);
    quarter(tab, to + 512, a, b, c);
    quarter(tab, to + 1024, a, b, d);
    quarter(tab, to + 1536, a, b, sum(c, d));
}

// The sixteen sums of four rows.
fn table(
    tab: &mut [u8],
    to: usize,
    w: usize,
    src: &[u8],
    p0: usize,
    p1: usize,
    p2: usize,
    p3: usize,
)
    requires { (w ≤ 128) × (to + 2048 ≤ length tab.old) × (p0 + w ≤ length src.now) × (p1 + w ≤ length src.now) × (p2 + w ≤ length src.now) × (p3 + w ≤ length src.now) }
    ensures { Tabled gf256 src.now p0 p1 p2 p3 to w tab.old tab.new }
{
    for j in 0..w {
        sixteen(
            tab,
            to + j,
            src[p0 + j],
            src[p1 + j],
            src[p2 + j],
            src[p3 + j],
        );
    }
}

// Where the sum that is picked has column j.
fn spot(picks: &[u8], i: usize, j: usize) -> usize
    requires { (i < length picks.now) × (get_or picks.now i 0 < 16) × (j < 128) }
    ensures { result ≡ get_or picks.now i 0 * 128 + j }
{
    picks[i] as usize * WIDTH + j
}

// What bit k of eight factors picks, in column j: a sum of the first four rows and one of the other four.
fn rung(tab: &[u8], picks: &[u8], at: usize, wide: usize, k: usize, j: usize) -> u8
    requires { Column picks.now at wide × (4096 ≤ length tab.now) × (k < 8) × (j < 128) }
    ensures { (gf256.coding.elem result ≡ rung_at gf256 tab.now picks.now at wide j k) × (result < 256) }
{
    let low = spot(picks, at + k * wide, j);
    let high = spot(picks, at + (8 + k) * wide, j);
    sum(tab[low], tab[SUMS + high])
}

// Twice what the higher bits gave, plus what bit k picks.
fn step(a: u8, tab: &[u8], picks: &[u8], at: usize, wide: usize, k: usize, j: usize) -> u8
    requires { (a < 256) × Column picks.now at wide × (4096 ≤ length tab.now) × (k < 8) × (j < 128) }
    ensures { (gf256.coding.elem result ≡ gf256.ops.add (gf256.ops.mul (gf256.coding.elem a) z) (rung_at gf256 tab.now picks.now at wide j k)) × (result < 256) }
{
    sum(twice(a), rung(tab, picks, at, wide, k, j))
}

// The sum of eight rows times their factors in column j, bit after bit.
fn ladder(tab: &[u8], picks: &[u8], at: usize, wide: usize, j: usize) -> u8
    requires { Column picks.now at wide × (4096 ≤ length tab.now) × (j < 128) }
    ensures { gf256.coding.elem result ≡ ladder_at tab.now picks.now at wide j }
{
    let a7 = rung(tab, picks, at, wide, 7, j);
    let a6 = step(a7, tab, picks, at, wide, 6, j);
    let a5 = step(a6, tab, picks, at, wide, 5, j);
    let a4 = step(a5, tab, picks, at, wide, 4, j);
    let a3 = step(a4, tab, picks, at, wide, 3, j);
    let a2 = step(a3, tab, picks, at, wide, 2, j);
    let a1 = step(a2, tab, picks, at, wide, 1, j);
    step(a1, tab, picks, at, wide, 0, j)
}

// All columns of a block.
fn climb(cur: &mut [u8], w: usize, tab: &[u8], picks: &[u8], at: usize, wide: usize)
    requires { (w ≤ 128) × (w ≤ length cur.old) × Column picks.now at wide × (4096 ≤ length tab.now) }
    ensures { Standing gf256 (ladder_at tab.now picks.now at wide) cur.old cur.new 0 w }
{
    for j in 0..w {
        cur[j] = ladder(tab, picks, at, wide, j);
    }
}

// One output row, added. It is worked out in a room of its own, which no other buffer can overlap, so that the compiler need not ask whether they do.
fn add_row(acc: &mut [u8], to: usize, w: usize, tab: &[u8], picks: &[u8], at: usize, wide: usize)
    requires { (w ≤ 128) × (to + w ≤ length acc.old) × Column picks.now at wide × (4096 ≤ length tab.now) }
    ensures { Run (climbed_at tab.now picks.now at wide acc.old to) acc.old acc.new to w }
{
    let mut cur = [0u8; WIDTH];
    climb(&mut cur, w, tab, picks, at, wide);
    kernel::add(acc, to, w, &cur, 0);
}

// All output rows, added.
fn add_rows(acc: &mut [u8], rows: usize, w: usize, tab: &[u8], picks: &[u8], at: usize, wide: usize)
    requires { (w ≤ 128) × (rows * 128 ≤ length acc.old) × ((o : ℕ) → o < rows → Column picks.now (at + o) wide) × (4096 ≤ length tab.now) }
    ensures { RowsAdded tab.now picks.now at wide w acc.old acc.new rows }
{
    for o in 0..rows {
        add_row(acc, o * WIDTH, w, tab, picks, at + o, wide);
    }
}

// The sums of four rows of a list.
fn four(tab: &mut [u8], to: usize, w: usize, src: &[u8], at: &[usize], q: usize)
    requires { (w ≤ 128) × (to + 2048 ≤ length tab.old) × (q + 4 ≤ length at.now) × ((i : ℕ) → i < 4 → get_or at.now (q + i) 0 + w ≤ length src.now) }
    ensures { Tabled gf256 src.now (get_or at.now q 0) (get_or at.now (q + 1) 0) (get_or at.now (q + 2) 0) (get_or at.now (q + 3) 0) to w
        tab.old tab.new }
{
    table(tab, to, w, src, at[q], at[q + 1], at[q + 2], at[q + 3]);
}

// Eight input rows times their factors, added to the output rows.
fn eight(
    tab: &mut [u8],
    acc: &mut [u8],
    rows: usize,
    w: usize,
    src: &[u8],
    at: &[usize],
    q: usize,
    picks: &[u8],
    wide: usize,
    first: usize,
)
    requires { Summing rows w src.now at.now picks.now wide first acc.old tab.old × (q < length at.now / 8) }
    ensures { EightAdded gf256 (weight_at gf256 picks.now wide) src.now at.now first w rows q acc.old acc.new }
{
    four(tab, 0, w, src, at, q * 8);
    four(tab, SUMS, w, src, at, q * 8 + 4);
    add_rows(acc, rows, w, tab, picks, q * 16 * wide + first, wide);
}

// The output rows from the number `first` on, with room for the sums of eight input rows.
fn sum_all(
    tab: &mut [u8],
    acc: &mut [u8],
    rows: usize,
    w: usize,
    src: &[u8],
    at: &[usize],
    picks: &[u8],
    wide: usize,
    first: usize,
)
    requires { Summing rows w src.now at.now picks.now wide first acc.old tab.old }
    ensures { Summed gf256 (weight_at gf256 picks.now wide) src.now at.now first w rows (length at.now / 8) acc.old acc.new }
{
    kernel::fill(acc, 0, rows * WIDTH, 0);
    for q in 0..at.len() / 8 {
        eight(tab, acc, rows, w, src, at, q, picks, wide, first);
    }
}

fn bit(x: u8, k: u32) -> u8
    requires { k < 8 }
    ensures { (result ≡ x / 2 ^ k % 2) × (result < 2) }
{
    (x >> k) & 1
}

// Which of the sixteen sums bit k of four factors picks.
fn pick(a: u8, b: u8, c: u8, d: u8, k: u32) -> u8
    requires { k < 8 }
    ensures { (result ≡ pick_of a b c d k) × (result < 16) }
{
    bit(a, k) + 2 * bit(b, k) + 4 * bit(c, k) + 8 * bit(d, k)
}

// The same for factors of four rows.
fn pick_at(g: &[u8], at: usize, wide: usize, k: u32) -> u8
    requires { (at + 3 * wide < length g.now) × (k < 8) }
    ensures { (result ≡ pick_at g.now at wide k) × (result < 16) }
{
    pick(g[at], g[at + wide], g[at + 2 * wide], g[at + 3 * wide], k)
}

// The same for all factors of four rows.
fn pick_row(picks: &mut [u8], to: usize, g: &[u8], at: usize, wide: usize, k: u32)
    requires { PickRoom picks.old (to + wide) g.now at wide × (k < 8) }
    ensures { PickedRow g.now at wide k to wide picks.old picks.new }
{
    for o in 0..wide {
        picks[to + o] = pick_at(g, at + o, wide, k);
    }
}

// The same for all bits.
fn pick_four(picks: &mut [u8], to: usize, g: &[u8], at: usize, wide: usize)
    requires { PickRoom picks.old (to + 8 * wide) g.now at wide }
    ensures { PickedFour g.now at wide to 8 picks.old picks.new }
{
    for k in 0..8 {
        pick_row(picks, to + k as usize * wide, g, at, wide, k);
    }
}

// The same for n times four input rows.
fn prepare_fours(picks: &mut [u8], g: &[u8], wide: usize, n: usize)
    requires { (n * (8 * wide) ≤ length picks.old) × (n * (4 * wide) ≤ length g.now) }
    ensures { Prepared g.now wide n picks.old picks.new }
{
    for q in 0..n {
        pick_four(picks, q * (8 * wide), g, q * (4 * wide), wide);
    }
}

impl BatchSums for u8 {
    ghost ready = { Ready };

    ghost weight = { weight_at };

    fn sum_rows(
        acc: &mut [u8],
        rows: usize,
        w: usize,
        src: &[u8],
        at: &[usize],
        picks: &[u8],
        wide: usize,
        first: usize,
    ) {
        let mut tab = [0u8; ROOM];
        sum_all(&mut tab, acc, rows, w, src, at, picks, wide, first);
    }

    fn prepare(picks: &mut [u8], g: &[u8], wide: usize, n: usize) {
        prepare_fours(picks, g, wide, n * 2);
    }

    fn inverse(self) -> u8 {
        Symbol(self).inverse().0
    }
}
