// Whether numbers stand for symbols. The highest number of a run is looked for, with no branch, so that the loop can be vectorised. In the field of 256 every byte
// is a symbol, and the compiler leaves the loops out.
#![tactic(auto)]

ghost use Rattle.std.specs.Prelude.{◌≡◌, ℕ, ◌+◌, ◌*◌, ◌<◌, ◌≤◌, length};
ghost use Rattle.range.specs.Range.{symbols_from, symbol_rows};
ghost use Rattle.range.specs.Inner.{Highest, HighestApart};

use field::FieldNumber;

// The higher of two numbers.
fn higher<N: FieldNumber>(a: N, b: N) -> N
    ensures { (N.code a ≤ N.code result) × (N.code b ≤ N.code result) × ((n : ℕ) → N.code a < n → N.code b < n → N.code result < n) }
{
    if a.is_below(b) { b } else { a }
}

// The highest number of a run, 0 of an empty one.
fn highest<N: FieldNumber>(xs: &[N], from: usize, len: usize) -> N
    requires { from + len ≤ length xs.now }
    ensures { Highest (N.codes xs.now) from len (N.code result) }
{
    let mut top = N::zero();
    for k in 0..len {
        top = higher(top, xs[from + k]);
    }
    top
}

// The highest of four numbers, so many places apart.
fn highest_apart<N: FieldNumber>(xs: &[N], at: usize, gap: usize) -> N
    requires { at + 3 * gap < length xs.now }
    ensures { HighestApart (N.codes xs.now) at gap (N.code result) }
{
    let low = higher(kernel::at(xs, at), kernel::at(xs, at + gap));
    let high = higher(kernel::at(xs, at + 2 * gap), kernel::at(xs, at + 3 * gap));
    higher(low, high)
}

// The highest of four times `gap` numbers, in four parts at once, so that a turn of the loop does more.
fn highest_of_four<N: FieldNumber>(xs: &[N], from: usize, gap: usize) -> N
    requires { from + 4 * gap ≤ length xs.now }
    ensures { Highest (N.codes xs.now) from (4 * gap) (N.code result) }
{
    let mut top = N::zero();
    for k in 0..gap {
        top = higher(top, highest_apart(xs, from + k, gap));
    }
    top
}

// Whether every number of a run is a symbol.
pub fn are_symbols<N: FieldNumber>(xs: &[N], from: usize, len: usize) -> bool
    requires { from + len ≤ length xs.now }
    ensures { result ≡ symbols_from N.field (N.codes xs.now) from len }
{
    let gap = len / 4;
    let top = highest_of_four(xs, from, gap);
    let rest = highest(xs, from + 4 * gap, len % 4);
    higher(top, rest).is_symbol()
}

// The same of a run in each row: so many rows of `width` numbers, and in each row `count` numbers from the place `first` on.
pub fn rows_are_symbols<N: FieldNumber>(
    xs: &[N],
    rows: usize,
    width: usize,
    first: usize,
    count: usize,
) -> bool
    requires { (first + count ≤ width) × (length xs.now ≡ rows * width) }
    ensures { result ≡ symbol_rows N.field (N.codes xs.now) rows width first count }
{
    for r in 0..rows {
        if !are_symbols(xs, r * width + first, count) {
            return false;
        }
    }
    true
}
