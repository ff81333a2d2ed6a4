// A sum of rows, each times one symbol, in the way that suits the numbers of each field.
#![tactic(auto)]

pub mod bytes;
pub mod wide;

ghost use Rattle.planes.specs.Inner.{Rows, Summed};

use field::FieldNumber;

pub trait SumRows: FieldNumber {
    // Row i of what is found: the sum of the m rows of sums, each times its symbol, the first of which stands at a place of coefs.
    fn combine(
        found: &mut [Self],
        w: usize,
        m: usize,
        i: usize,
        sums: &[Self],
        coefs: &[Self],
        at: usize,
    )
        requires { Rows w m i (Self.codes found.old) (Self.codes sums.now) (Self.codes coefs.now) at }
        ensures { Summed Self.field w m i (Self.codes sums.now) (Self.codes coefs.now) at (Self.codes found.old) (Self.codes found.new) };
}
