// Sums of rows, each times a factor: many output rows from the same input rows, in the way that suits the numbers of each field.
#![tactic(auto)]

pub mod bytes;
pub mod wide;

ghost use Rattle.std.specs.Prelude.{◌≡◌, ℕ, List, ◌+◌, ◌*◌, ◌/◌, ◌≤◌, length};
ghost use Rattle.algebra.specs.Shape.{Field};
ghost use Rattle.batch_kernel.specs.Inner.{Summed, Weighs, Laid};

use field::FieldNumber;

// The most columns of a block.
pub const WIDTH: usize = 128;

pub trait BatchSums: FieldNumber {
    // When the factors of n times eight input rows are ready in a buffer, with so many output rows.
    ghost ready: { List ℕ → ℕ → ℕ → Type 0 };

    // The factor of input row t in output row o that such a buffer tells.
    ghost weight: { {A : Type 0} → Field A → List ℕ → ℕ → ℕ → ℕ → A };

    // The output rows from the number `first` on, in a block of w columns: the sums over all input rows of a list, whose places in the buffer are given, each
    // times its factor.
    fn sum_rows(
        acc: &mut [Self],
        rows: usize,
        w: usize,
        src: &[Self],
        at: &[usize],
        picks: &[Self],
        wide: usize,
        first: usize,
    )
        requires { Laid rows w src.now at.now wide first acc.old × ready (Self.codes picks.now) wide (length at.now / 8) }
        ensures { Summed Self.field (weight Self.field (Self.codes picks.now) wide) (Self.codes src.now) at.now first w rows (length at.now / 8)
            (Self.codes acc.old) (Self.codes acc.new) };

    // The factors of n times eight input rows, made ready for the sums: a row of factors for each input row, one factor for each output row.
    fn prepare(picks: &mut [Self], g: &[Self], wide: usize, n: usize)
        requires { (n ≤ 8) × (n * (16 * wide) ≤ length picks.old) × (n * (8 * wide) ≤ length g.now) }
        ensures ready { ready (Self.codes picks.new) wide n }
        ensures weighs { Weighs Self.field (weight Self.field (Self.codes picks.new) wide) (Self.codes g.now) wide n };

    // The inverse of a symbol; of zero, zero.
    fn inverse(self) -> Self
        ensures { Self.field.coding.elem (Self.code result) ≡ Self.field.ops.inv (Self.field.coding.elem (Self.code self)) };
}
