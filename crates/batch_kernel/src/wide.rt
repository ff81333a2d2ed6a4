// The sums of rows of 16-bit numbers, in the field modulo 257. A row is taken to an output row in one pass, with a product and a reduction a symbol.
ghost use Rattle.std.specs.Prelude.{◌≡◌, ℕ, ◌+◌, ◌*◌, ◌/◌, ◌<◌, ◌≤◌, length, get_or};
ghost use Rattle.symbol257.specs.Elem.{gf257};
ghost use Rattle.kernel.specs.Inner.{Run};
ghost use Rattle.batch_kernel.specs.Inner.{row_of, Adding};
ghost use Rattle.batch_kernel.specs.Wide.{weight_at, Ready};

use crate::{BatchSums, WIDTH};
use symbol257::Symbol;

// One output row.
fn sum_row(
    acc: &mut [u16],
    to: usize,
    w: usize,
    src: &[u16],
    at: &[usize],
    picks: &[u16],
    wide: usize,
    o: usize,
)
    requires { Adding (length at.now / 8) to w src.now at.now picks.now wide o acc.old }
    ensures { Run (row_of gf257 (weight_at gf257 picks.now wide) src.now at.now o (length at.now / 8 * 8)) acc.old acc.new to w }
{
    kernel::fill(acc, to, w, 0);
    for t in 0..at.len() / 8 * 8 {
        let v = kernel::at(picks, t * wide + o);
        kernel::add_multiple(acc, to, w, src, at[t], v);
    }
}

impl BatchSums for u16 {
    ghost ready = { Ready };

    ghost weight = { weight_at };

    fn sum_rows(
        acc: &mut [u16],
        rows: usize,
        w: usize,
        src: &[u16],
        at: &[usize],
        picks: &[u16],
        wide: usize,
        first: usize,
    ) {
        for o in 0..rows {
            sum_row(acc, o * WIDTH, w, src, at, picks, wide, first + o);
        }
    }

    fn prepare(picks: &mut [u16], g: &[u16], wide: usize, n: usize) {
        kernel::copy(picks, 0, n * 8 * wide, g, 0);
    }

    fn inverse(self) -> u16 {
        Symbol(self).inverse().0
    }
}
