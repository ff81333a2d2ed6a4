// Horner's rule down the digits of a rack, over runs of symbols: for each digit from the highest down a power of the root times what there is, plus a symbol
// where its digit is that one. A power of the root is so many doublings. The compiler does many symbols at a time only where the number of doublings is known to
// it: one to four are written out, and more are done by fours.
#![tactic(auto)]

ghost use Rattle.std.specs.Prelude.{◌≡◌, cond, ◌+◌, ◌-◌, ◌<◌, ◌≤◌, eqb, length};
ghost use Rattle.symbol.specs.Elem.{gf256};
ghost use Rattle.kernel.specs.Inner.{Run};
ghost use Rattle.horner.specs.Inner.{scaled, scaled_run, Scaled, stepped_run, through_run};

use symbol::plain::sum;
use symbol::shift_add::twice;

// A symbol times the root, t times over.
fn raised(x: u8, t: usize) -> u8
    ensures { result ≡ scaled gf256 t x }
{
    let mut v = x;
    for _k in 0..t {
        v = twice(v);
    }
    v
}

// y where d is p, else zero.
fn chosen(y: u8, d: u8, p: u8) -> u8
    ensures { result ≡ cond (eqb d p) y 0 }
{
    if d == p { y } else { 0 }
}

// A run times the t-th power of the root.
fn raise_run(out: &mut [u8], to: usize, len: usize, t: usize)
    requires { to + len ≤ length out.old }
    ensures { Run (scaled_run gf256 out.old to t) out.old out.new to len }
{
    for j in 0..len {
        out[to + j] = raised(out[to + j], t);
    }
}

// The same, plus the symbols of `cur` where `row` has p: one digit.
fn step_run(out: &mut [u8], to: usize, len: usize, cur: &[u8], row: &[u8], p: u8, t: usize)
    requires { (to + len ≤ length out.old) × (len ≤ length cur.now) × (len ≤ length row.now) }
    ensures { Run (stepped_run gf256 out.old to cur.now row.now p t) out.old out.new to len }
{
    for j in 0..len {
        out[to + j] = sum(raised(out[to + j], t), chosen(cur[j], row[j], p));
    }
}

// A run times z^t but for one to four doublings; answers how many are left.
fn raise_fours(out: &mut [u8], to: usize, len: usize, t: usize) -> usize
    requires { (to + len ≤ length out.old) × (0 < t) }
    ensures { (0 < result) × (result ≤ 4) × (result ≤ t) × Scaled gf256 (t - result) out.old out.new to len }
{
    let fours = (t - 1) / 4;
    for _n in 0..fours {
        raise_run(out, to, len, 4);
    }
    t - 4 * fours
}

// One digit, any power.
fn step(out: &mut [u8], to: usize, len: usize, cur: &[u8], row: &[u8], p: u8, t: usize)
    requires { (to + len ≤ length out.old) × (len ≤ length cur.now) × (len ≤ length row.now) × (0 < t) }
    ensures { Run (stepped_run gf256 out.old to cur.now row.now p t) out.old out.new to len }
{
    match raise_fours(out, to, len, t) {
        1 => step_run(out, to, len, cur, row, p, 1),
        2 => step_run(out, to, len, cur, row, p, 2),
        3 => step_run(out, to, len, cur, row, p, 3),
        _ => step_run(out, to, len, cur, row, p, 4),
    }
}

// All s digits: `row` has the power of the root by the digit of each symbol of `cur`.
pub fn steps(out: &mut [u8], to: usize, len: usize, cur: &[u8], row: &[u8], s: u32, t: usize)
    requires { (to + len ≤ length out.old) × (len ≤ length cur.now) × (len ≤ length row.now) × (s ≤ 8) × (0 < t) }
    ensures { Run (through_run gf256 out.old to cur.now row.now s t) out.old out.new to len }
{
    for a in (0..s).rev() {
        step(out, to, len, cur, row, 1u8 << a, t);
    }
}
