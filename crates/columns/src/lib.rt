// Systems of checks by the columns: the products of differences over many systems at a time. A buffer of points has a row for each unknown and a column
// for each system; right sides and solutions have a row for each check and unknown, `run` places for each column, whose points are alike there, and the columns
// come `turns` times over.
// Promises the algebra's solution (`solve` in algebra/specs/Lagrange.antt) at every place, for any points and right sides. All are written
// once, over the numbers of any field.
#![tactic(auto)]

pub mod runs;

ghost use Rattle.std.specs.Prelude.{◌≡◌, ◌+◌, ◌-◌, ◌*◌, ◌<◌, ◌≤◌, min, length};
ghost use Rattle.kernel.specs.Inner.{Run};
ghost use Rattle.columns.specs.Inner.{Columns, Timed, Locator, Turned, Divisors, Factored, Quotient, room};
ghost use Rattle.columns.specs.Inner.{weighted, stretched, widened, Places, Systems, Wholes, Combined, Divided, RowSolved, Solved};

use crate::runs::{divide, negate, scale, scale_by};
use field::FieldNumber;
use planes::SumRows;

// The most points of all columns: the symbols of a room of blocks.
const ROOM: usize = 1536;

// Runs shorter than this are not treated as one.
const RUN: usize = 16;

// (X - q) times the polynomials of rows 0 .. top, those above being zero. `carry` is room for a row.
fn times<N: FieldNumber>(
    out: &mut [N],
    carry: &mut [N],
    v: usize,
    m: usize,
    top: usize,
    q: usize,
    points: &[N],
)
    requires { Columns v m points.now out.old × (v ≤ length carry.old) × (top < m) × (q < m) }
    ensures { Timed N.field v q top (N.codes points.now) (N.codes out.old) (N.codes out.new) }
{
    kernel::fill(carry, 0, v, N::zero());
    for t in 0..top + 1 {
        kernel::shift(out, t * v, v, carry, points, q * v);
    }
}

// The highest row that (X - q) reaches.
fn top_row(m: usize, q: usize) -> usize
    requires { q < m }
    ensures { result ≡ min (q + 1) (m - 1) }
{
    if q + 1 < m { q + 1 } else { m - 1 }
}

// The product of (X - q) over all points q; the coefficient of X^m is one and is not kept.
fn locator<N: FieldNumber>(out: &mut [N], carry: &mut [N], v: usize, m: usize, points: &[N])
    requires { Columns v m points.now out.old × (v ≤ length carry.old) × (0 < m) }
    ensures { Locator N.field v m (N.codes points.now) m (N.codes out.new) }
{
    kernel::fill(out, 0, v, N::one());
    kernel::fill(out, v, m * v - v, N::zero());
    for q in 0..m {
        let top = top_row(m, q);
        times(out, carry, v, m, top, q, points);
    }
}

// The products of differences, each with the k-th next point: all rows at a time, in two runs.
fn turn<N: FieldNumber>(out: &mut [N], v: usize, m: usize, k: usize, points: &[N])
    requires { Columns v m points.now out.old × (0 < k) × (k < m) × Turned N.field v m (N.codes points.now) k (N.codes out.old) }
    ensures { Turned N.field v m (N.codes points.now) (k + 1) (N.codes out.new) }
{
    kernel::part(out, 0, (m - k) * v, points, 0, k * v);
    kernel::part(out, (m - k) * v, k * v, points, (m - k) * v, 0);
}

// The inverses of less the products of each point's differences with the others.
fn divisors<N: FieldNumber>(out: &mut [N], v: usize, m: usize, points: &[N])
    requires { Columns v m points.now out.old × (0 < m) }
    ensures { Divisors N.field v m (N.codes points.now) (N.codes out.new) }
{
    kernel::fill(out, 0, m * v, N::minus_one());
    for k in 1..m {
        turn(out, v, m, k, points);
    }
    kernel::invert(out, 0, m * v);
}

// The product's quotient by (X - point i), from the highest power down.
fn quotient<N: FieldNumber>(
    out: &mut [N],
    v: usize,
    m: usize,
    i: usize,
    product: &[N],
    points: &[N],
)
    requires { Columns v m points.now out.old × (m * v ≤ length product.now) × (i < m)
        × Locator N.field v m (N.codes points.now) m (N.codes product.now) }
    ensures { Quotient N.field v m (N.codes points.now) i 0 (N.codes out.new) }
{
    kernel::fill(out, (m - 1) * v, v, N::one());
    for t in (0..m - 1).rev() {
        divide(
            out,
            t * v,
            v,
            product,
            (t + 1) * v,
            (t + 1) * v,
            points,
            i * v,
        );
    }
}

// A run plus another, each column's part times the column's coefficient.
fn add_columns<N: FieldNumber>(
    found: &mut [N],
    to: usize,
    v: usize,
    run: usize,
    turns: usize,
    sums: &[N],
    from: usize,
    coefs: &[N],
    at: usize,
)
    requires { Places to v run turns found.old sums.now from coefs.now at }
    ensures { Run (weighted N.field (N.codes found.old) to v run (N.codes sums.now) from (N.codes coefs.now) at)
        (N.codes found.old) (N.codes found.new) to (v * turns * run) }
{
    for c in 0..v * turns {
        kernel::add_multiple(
            found,
            to + c * run,
            run,
            sums,
            from + c * run,
            kernel::at(coefs, at + c % v),
        );
    }
}

// The coefficients of v columns, each so many times.
fn spread_runs<N: FieldNumber>(row: &mut [N], v: usize, run: usize, coefs: &[N], at: usize)
    requires { (v * run ≤ length row.old) × (at + v ≤ length coefs.now) }
    ensures { Run (stretched (N.codes coefs.now) at run) (N.codes row.old) (N.codes row.new) 0 (v * run) }
{
    for c in 0..v {
        kernel::fill(row, c * run, run, kernel::at(coefs, at + c));
    }
}

// The same; runs of one by a copy.
fn spread<N: FieldNumber>(row: &mut [N], v: usize, run: usize, coefs: &[N], at: usize)
    requires { (v * run ≤ length row.old) × (at + v ≤ length coefs.now) }
    ensures { Run (stretched (N.codes coefs.now) at run) (N.codes row.old) (N.codes row.new) 0 (v * run) }
{
    if run == 1 {
        kernel::copy(row, 0, v, coefs, at);
        return;
    }
    spread_runs(row, v, run, coefs, at);
}

// The same over and over: the coefficient of every place.
fn widen<N: FieldNumber>(row: &mut [N], v: usize, run: usize, turns: usize, coefs: &[N], at: usize)
    requires { (0 < run) × (0 < v) × (0 < turns) × (v * turns * run ≤ length row.old) × (at + v ≤ length coefs.now) }
    ensures { Run (widened (N.codes coefs.now) at v run) (N.codes row.old) (N.codes row.new) 0 (v * turns * run) }
{
    spread(row, v, run, coefs, at);
    kernel::extend(row, v * run, turns);
}

// The same as `add_columns`; short runs by the coefficient of every place.
fn add_row<N: FieldNumber>(
    found: &mut [N],
    to: usize,
    v: usize,
    run: usize,
    turns: usize,
    sums: &[N],
    from: usize,
    coefs: &[N],
    at: usize,
    row: &mut [N],
)
    requires { Places to v run turns found.old sums.now from coefs.now at × (v * turns * run ≤ length row.old) }
    ensures { Run (weighted N.field (N.codes found.old) to v run (N.codes sums.now) from (N.codes coefs.now) at)
        (N.codes found.old) (N.codes found.new) to (v * turns * run) }
{
    if RUN <= run {
        add_columns(found, to, v, run, turns, sums, from, coefs, at);
        return;
    }
    widen(row, v, run, turns, coefs, at);
    kernel::add_product(found, to, v * turns * run, sums, from, row, 0);
}

// Row i of what is found: the sum of the right sides, each times the coefficients of its row.
fn combine<N: FieldNumber>(
    found: &mut [N],
    w: usize,
    v: usize,
    run: usize,
    turns: usize,
    m: usize,
    i: usize,
    sums: &[N],
    coefs: &[N],
    row: &mut [N],
)
    requires { Systems w v run turns m found.old sums.now coefs.now row.old × (i < m) }
    ensures { Combined N.field w v run m i (N.codes sums.now) (N.codes coefs.now) (N.codes found.old) (N.codes found.new) }
{
    kernel::fill(found, i * w, w, N::zero());
    for t in 0..m {
        add_row(found, i * w, v, run, turns, sums, t * w, coefs, t * v, row);
    }
}

// Row i divided by the products of differences of its columns.
fn divide_row<N: FieldNumber>(
    found: &mut [N],
    w: usize,
    v: usize,
    run: usize,
    turns: usize,
    i: usize,
    divs: &[N],
    row: &mut [N],
)
    requires { (0 < run) × (0 < v) × (0 < turns) × (w ≡ v * turns * run) × (i * w + w ≤ length found.old) × (i * v + v ≤ length divs.now)
        × (w ≤ length row.old) }
    ensures { Divided N.field w v run i (N.codes divs.now) (N.codes found.old) (N.codes found.new) }
{
    widen(row, v, run, turns, divs, i * v);
    scale(found, i * w, w, row, 0);
}

// Row i of what is found, combined and then divided.
fn solve_columns<N: FieldNumber>(
    found: &mut [N],
    w: usize,
    v: usize,
    run: usize,
    turns: usize,
    m: usize,
    i: usize,
    sums: &[N],
    points: &[N],
    divs: &[N],
    coefs: &[N],
    row: &mut [N],
)
    requires { Systems w v run turns m found.old sums.now coefs.now row.old × (i < m) × (m * v ≤ length divs.now)
        × Divisors N.field v m (N.codes points.now) (N.codes divs.now)
        × Quotient N.field v m (N.codes points.now) i 0 (N.codes coefs.now) }
    ensures { RowSolved N.field w v run m i (N.codes sums.now) (N.codes points.now) (N.codes found.old) (N.codes found.new) }
{
    combine(found, w, v, run, turns, m, i, sums, coefs, row);
    divide_row(found, w, v, run, turns, i, divs, row);
}

// Row i of what is found where all places have the same points: the coefficients are divided, and not the row.
fn solve_whole<N: SumRows>(
    found: &mut [N],
    w: usize,
    v: usize,
    run: usize,
    m: usize,
    i: usize,
    sums: &[N],
    points: &[N],
    divs: &[N],
    coefs: &mut [N],
)
    requires { Wholes w v m found.old sums.now coefs.old × (i < m) × (m * v ≤ length divs.now)
        × Divisors N.field v m (N.codes points.now) (N.codes divs.now)
        × Quotient N.field v m (N.codes points.now) i 0 (N.codes coefs.old) }
    ensures { RowSolved N.field w v run m i (N.codes sums.now) (N.codes points.now) (N.codes found.old) (N.codes found.new) }
{
    scale_by(coefs, 0, m * v, kernel::at(divs, i * v));
    N::combine(found, w, m, i, sums, coefs, 0);
}

// Row i of what is found.
fn solve_row<N: SumRows>(
    found: &mut [N],
    w: usize,
    v: usize,
    run: usize,
    turns: usize,
    m: usize,
    i: usize,
    sums: &[N],
    points: &[N],
    product: &[N],
    divs: &[N],
    coefs: &mut [N],
    row: &mut [N],
)
    requires { Systems w v run turns m found.old sums.now coefs.old row.old
        × Factored N.field v m (N.codes points.now) (N.codes product.now) (N.codes divs.now) × (i < m) }
    ensures { RowSolved N.field w v run m i (N.codes sums.now) (N.codes points.now) (N.codes found.old) (N.codes found.new) }
{
    quotient(coefs, v, m, i, product, points);
    if run == w {
        solve_whole(found, w, v, run, m, i, sums, points, divs, coefs);
        return;
    }
    solve_columns(
        found, w, v, run, turns, m, i, sums, points, divs, coefs, row,
    );
}

// The first n rows.
fn solve_rows<N: SumRows>(
    found: &mut [N],
    w: usize,
    v: usize,
    run: usize,
    turns: usize,
    m: usize,
    n: usize,
    sums: &[N],
    points: &[N],
    product: &[N],
    divs: &[N],
    coefs: &mut [N],
    row: &mut [N],
)
    requires { Systems w v run turns m found.old sums.now coefs.old row.old
        × Factored N.field v m (N.codes points.now) (N.codes product.now) (N.codes divs.now) × (n ≤ m) }
    ensures { Solved N.field w v run m (N.codes sums.now) (N.codes points.now) (N.codes found.new) n }
{
    for i in 0..n {
        solve_row(
            found, w, v, run, turns, m, i, sums, points, product, divs, coefs, row,
        );
    }
}

// The product over all points and the divisors, which all rows go by.
fn factor<N: FieldNumber>(
    product: &mut [N],
    divs: &mut [N],
    carry: &mut [N],
    v: usize,
    m: usize,
    points: &[N],
)
    requires { Columns v m points.now product.old × Columns v m points.now divs.old × (v ≤ length carry.old) × (0 < m) }
    ensures { Factored N.field v m (N.codes points.now) (N.codes product.new) (N.codes divs.new) }
{
    locator(product, carry, v, m, points);
    divisors(divs, v, m, points);
}

// The first n rows of more than one, with room for what they go by.
fn solve_many<N: SumRows>(
    found: &mut [N],
    w: usize,
    v: usize,
    run: usize,
    turns: usize,
    m: usize,
    n: usize,
    sums: &[N],
    points: &[N],
    coefs: &mut [N],
    row: &mut [N],
)
    requires { Systems w v run turns m found.old sums.now coefs.old row.old × (m * v ≤ length points.now) × (n ≤ m) × (m * v ≤ room)
        × (0 < m) }
    ensures { Solved N.field w v run m (N.codes sums.now) (N.codes points.now) (N.codes found.new) n }
{
    let mut product = [N::zero(); ROOM];
    let mut divs = [N::zero(); ROOM];
    factor(&mut product, &mut divs, row, v, m, points);
    solve_rows(
        found, w, v, run, turns, m, n, sums, points, &product, &divs, coefs, row,
    );
}

// The first n unknowns of every system, a row for each: those whose checks make up for the sums, so that the right sides are less these. `coefs` is room for a
// row of columns for each point, and `row` for a row of places.
pub fn solve_first<N: SumRows>(
    found: &mut [N],
    w: usize,
    v: usize,
    run: usize,
    turns: usize,
    m: usize,
    n: usize,
    sums: &[N],
    points: &[N],
    coefs: &mut [N],
    row: &mut [N],
)
    requires { Systems w v run turns m found.old sums.now coefs.old row.old × (m * v ≤ length points.now) × (n ≤ m) × (m * v ≤ room) }
    ensures { Solved N.field w v run m (N.codes sums.now) (N.codes points.now) (N.codes found.new) n }
{
    if n == 0 {
        return;
    }
    if m == 1 {
        negate(found, 0, w, sums, 0);
        return;
    }
    solve_many(found, w, v, run, turns, m, n, sums, points, coefs, row);
}

// All of them.
pub fn solve<N: SumRows>(
    found: &mut [N],
    w: usize,
    v: usize,
    run: usize,
    turns: usize,
    m: usize,
    sums: &[N],
    points: &[N],
    coefs: &mut [N],
    row: &mut [N],
)
    requires { Systems w v run turns m found.old sums.now coefs.old row.old × (m * v ≤ length points.now) × (m * v ≤ room) }
    ensures { Solved N.field w v run m (N.codes sums.now) (N.codes points.now) (N.codes found.new) m }
{
    solve_first(found, w, v, run, turns, m, m, sums, points, coefs, row);
}
