// The grounds of a repair that hang on numbers alone, over either field: lengths, one rack, and the counts of the lists. Each test answers exactly what its definition
// says.
#![tactic(auto)]

ghost use Rattle.std.specs.Prelude.{◌≡◌, ◌*◌, ◌<◌, eqb};
ghost use Rattle.layout.specs.Layout.{Cabinet};
ghost use Rattle.grounds.specs.Grounds.{one_rack};
ghost use Rattle.grounds.specs.Inner.{count_refusal};

use layout::Layout;

// Whether n is e times a unit, with no product that could overflow.
pub fn is_times(n: usize, e: usize, unit: usize) -> bool
    requires { 0 < unit }
    ensures { result ≡ eqb n (e * unit) }
{
    if n / unit != e {
        return false;
    }
    n % unit == 0
}

// Whether every tray stands in the rack of the first one listed.
pub fn one_rack(l: Layout, lost: &[u32]) -> bool
    requires { Cabinet l }
    ensures { result ≡ one_rack l lost.now }
{
    let u = l.size;
    for tray in lost {
        if *tray / u != lost[0] / u {
            return false;
        }
    }
    true
}

// The first ground after those that the numbers in the lists and the symbols give: 5, 12, 6 or 7, 0 for none.
pub fn count_refusal(l: Layout, lost: &[u32], helpers: &[u32], first: u64) -> u8
    requires { Cabinet l }
    ensures { result ≡ count_refusal l lost.now helpers.now first }
{
    let u = l.size;
    let d = l.helpers;
    if helpers.len() != d as usize {
        return 5;
    }
    if !layout::lost_count_fits(l, lost.len()) {
        return 12;
    }
    if !lists::is_absent(helpers, lost[0] / u) {
        return 6;
    }
    if (layout::group_count(l) as u64) < first {
        return 7;
    }
    0
}
