// Made by tools/twin.py from crates/batch_factors/src/lib.rt.
// The factors of a layer: what each known symbol counts for in each symbol that is worked out, by the products of differences. Promises, less, the value of
// the algebra's `basis` of the points that are solved for (algebra/specs/Lagrange.antt) at every known point; the sums with these factors are the solution
// (proofs/Sums.antt).
#![tactic(auto)]

ghost use Rattle.std.specs.Prelude.{◌≡◌, ◌+◌, ◌*◌, ◌<◌, ◌≤◌, length};
ghost use Rattle.symbol257.specs.Elem.{gf257};
ghost use Rattle.kernel.specs.Inner.{Run, Standing};
ghost use Rattle.batch_factors.specs.Inner.{step_at, others_at, product_at, row_at, Timed, Inverted, Divided, Solving, Factored};

use batch_kernel::BatchSums;
use symbol257::plain::{MINUS_ONE, difference, product};

// The most symbols that are worked out, in whole vectors.
const LANES: usize = 64;

// A run times the differences of other symbols and one.
fn times_step(g: &mut [u16], to: usize, len: usize, xs: &[u16], v: u16)
    requires { (to + len ≤ length g.old) × (len ≤ length xs.now) }
    ensures { Run (step_at gf257 g.old to xs.now v) g.old g.new to len }
{
    for j in 0..len {
        g[to + j] = product(g[to + j], difference(xs[j], v));
    }
}

// The same, but for place q, which stays.
fn times_point(g: &mut [u16], to: usize, len: usize, xs: &[u16], v: u16, q: usize)
    requires { (to + len ≤ length g.old) × (len ≤ length xs.now) × (q < len) }
    ensures { Timed gf257 xs.now v q to len g.old g.new }
{
    let kept = kernel::at(g, to + q);
    times_step(g, to, len, xs, v);
    kernel::fill(g, to + q, 1, kept);
}

// A run times the differences with each of the first s points, but at each place the point of its own number.
fn times_others(g: &mut [u16], to: usize, len: usize, xs: &[u16], points: &[u16], s: usize)
    requires { (to + len ≤ length g.old) × (len ≤ length xs.now) × (s ≤ len) × (s ≤ length points.now) }
    ensures { Standing gf257 (product_at gf257 g.old to xs.now points.now s) g.old g.new to len }
{
    for q in 0..s {
        times_point(g, to, len, xs, kernel::at(points, q), q);
    }
}

// The inverses of the first s symbols.
fn invert(den: &mut [u16], s: usize)
    requires { s ≤ length den.old }
    ensures { Inverted gf257 den.old den.new s }
{
    for o in 0..s {
        let v = kernel::at(den, o).inverse();
        kernel::fill(den, o, 1, v);
    }
}

// Less one, over the product of the differences of each point and the others.
fn divisors(den: &mut [u16], wide: usize, points: &[u16], s: usize)
    requires { (wide ≤ length den.old) × (wide ≤ length points.now) × (s ≤ wide) }
    ensures { Divided gf257 points.now s den.new }
{
    kernel::fill(den, 0, wide, MINUS_ONE);
    times_others(den, 0, wide, points, points, s);
    invert(den, s);
}

// The factors of one known symbol.
fn factor_row(
    g: &mut [u16],
    to: usize,
    wide: usize,
    x: u16,
    points: &[u16],
    s: usize,
    den: &[u16],
    xs: &mut [u16],
)
    requires { (to + wide ≤ length g.old) × (wide ≤ length den.now) × (wide ≤ length xs.old) × (s ≤ wide) × (s ≤ length points.now) }
    ensures { Standing gf257 (row_at gf257 den.now x points.now s) g.old g.new to wide }
{
    kernel::copy(g, to, wide, den, 0);
    kernel::fill(xs, 0, wide, x);
    times_others(g, to, wide, xs, points, s);
}

// The factors of the first n known symbols, with the divisors worked out.
fn factor_rows(
    g: &mut [u16],
    wide: usize,
    known: &[u16],
    n: usize,
    points: &[u16],
    s: usize,
    den: &[u16],
    xs: &mut [u16],
)
    requires { Solving wide n s g.old known.now points.now × (wide ≤ length den.now) × (wide ≤ length xs.old) × Divided gf257 points.now s den.now }
    ensures { Factored gf257 known.now points.now s wide n g.old g.new }
{
    for t in 0..n {
        factor_row(g, t * wide, wide, kernel::at(known, t), points, s, den, xs);
    }
}

// The factors of the first n known symbols for the s symbols that are worked out: a row of them for each known one.
pub fn factors(g: &mut [u16], wide: usize, known: &[u16], n: usize, points: &[u16], s: usize)
    requires { Solving wide n s g.old known.now points.now × (wide ≤ 64) }
    ensures { Factored gf257 known.now points.now s wide n g.old g.new }
{
    let mut den = [0u16; LANES];
    let mut xs = [0u16; LANES];
    divisors(&mut den, wide, points, s);
    factor_rows(g, wide, known, n, points, s, &den, &mut xs);
}
