// Loops over a run of symbols that dividing polynomials needs, as those of crate kernel, written once, over the numbers of any field.
ghost use Rattle.std.specs.Prelude.{◌+◌, ◌≤◌, length};
ghost use Rattle.kernel.specs.Inner.{Run};
ghost use Rattle.columns.specs.Inner.{divided, scaled, scaled_by, negated};

use field::FieldNumber;

// A buffer's run, plus the run after the one written times another buffer's.
pub fn divide<N: FieldNumber>(
    out: &mut [N],
    to: usize,
    len: usize,
    src: &[N],
    from: usize,
    next: usize,
    by: &[N],
    at: usize,
)
    requires { (to + len ≤ next) × (next + len ≤ length out.old) × (from + len ≤ length src.now) × (at + len ≤ length by.now) }
    ensures { Run (divided N.field (N.codes src.now) from (N.codes out.old) next (N.codes by.now) at)
        (N.codes out.old) (N.codes out.new) to len }
{
    for j in 0..len {
        out[to + j] = src[from + j].sum(out[next + j].product(by[at + j]));
    }
}

// A run times another buffer's.
pub fn scale<N: FieldNumber>(out: &mut [N], to: usize, len: usize, by: &[N], at: usize)
    requires { (to + len ≤ length out.old) × (at + len ≤ length by.now) }
    ensures { Run (scaled N.field (N.codes out.old) to (N.codes by.now) at) (N.codes out.old) (N.codes out.new) to len }
{
    for j in 0..len {
        out[to + j] = out[to + j].product(by[at + j]);
    }
}

// A run times one symbol.
pub fn scale_by<N: FieldNumber>(out: &mut [N], to: usize, len: usize, x: N)
    requires { to + len ≤ length out.old }
    ensures { Run (scaled_by N.field (N.codes out.old) to (N.code x)) (N.codes out.old) (N.codes out.new) to len }
{
    for j in 0..len {
        out[to + j] = out[to + j].product(x);
    }
}

// Less another buffer's run.
pub fn negate<N: FieldNumber>(out: &mut [N], to: usize, len: usize, src: &[N], from: usize)
    requires { (to + len ≤ length out.old) × (from + len ≤ length src.now) }
    ensures { Run (negated N.field (N.codes src.now) from) (N.codes out.old) (N.codes out.new) to len }
{
    for j in 0..len {
        out[to + j] = N::zero().difference(src[from + j]);
    }
}
