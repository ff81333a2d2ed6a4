// Laws on lists and plain numbers that every crate above shares (specs/, proofs/), and the tests of a list of tray or rack numbers that several calls
// make, the smaller of two numbers, and clearing a buffer. Each test answers exactly what its definition says, for a list of any length and content.
#![tactic(auto)]

ghost use Rattle.std.specs.Prelude.{◌≡◌, ◌≤◌, ◌++◌, min, take, drop, length};
ghost use Rattle.lists.specs.Lists.{all_below, strictly_rising, absent};

// Whether every number is below n.
pub fn all_below(xs: &[u32], n: u32) -> bool
    ensures { result ≡ all_below xs.now n }
{
    xs.iter().all(|x| *x < n)
}

// Whether each number is above the one before.
pub fn strictly_rising(xs: &[u32]) -> bool
    ensures { result ≡ strictly_rising xs.now }
{
    xs.windows(2).all(|pair| pair[0] < pair[1])
}

// Whether n is not in the list. By a `for`: with `contains` or `all`, `test` in layouts of few layers took up to three times
// as long (docs/LOOK-BACK.md).
pub fn is_absent(xs: &[u32], n: u32) -> bool
    ensures { result ≡ absent xs.now n }
{
    for x in xs {
        if *x == n {
            return false;
        }
    }
    true
}

// The smaller of two numbers.
pub fn smaller(a: u64, b: u64) -> u64
    ensures { result ≡ min a b }
{
    a.min(b)
}

// Copies bytes to the front of a buffer.
pub fn copy_bytes(from: &[u8], to: &mut [u8])
    requires { length from.now ≤ length to.old }
    ensures { to.new ≡ take (length from.now) from.now ++ drop (length from.now) to.old }
{
    to[..from.len()].copy_from_slice(from);
}
