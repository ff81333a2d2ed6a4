// Made by tools/twin.py from crates/scrub/src/grounds.rt.
// The grounds on which a call is refused, and the layers that it looks at.
ghost use Rattle.std.specs.Prelude.{◌≡◌, ◌≤◌};
ghost use Rattle.symbol257.specs.Elem.{gf257};
ghost use Rattle.codeword.specs.Inner.{Scannable};
ghost use Rattle.scrub.specs.Scrub.{plausible, step_layers, step_symbols, scrub_refusal};

use layout::Layout;
use scrub::Walk;
use symbol257::plain::ORDER;

// Whether a record is one that a call over so many layers takes.
fn takes(total: u32, walk: Walk) -> bool
    ensures { result ≡ plausible total walk }
{
    let j = walk.next;
    let n = walk.bad;
    let f = walk.first;
    if total < j {
        return false;
    }
    if j < n {
        return false;
    }
    if n == 0 {
        return f == total;
    }
    f < j
}

// How many layers a call looks at: the smaller of its budget and the layers left.
pub fn step_layers(total: u32, walk: Walk, budget: u64) -> u32
    requires { walk.next ≤ total }
    ensures { result ≡ step_layers total walk budget }
{
    let j = walk.next;
    lists::smaller(budget, (total - j) as u64) as u32
}

// Whether every number in the layers that a call looks at is a symbol.
fn step_symbols(l: Layout, total: u32, c: &[u16], walk: Walk, budget: u64) -> bool
    requires { Scannable l total c.now × (walk.next ≤ total) }
    ensures { result ≡ step_symbols gf257 l c.now walk budget }
{
    let first = walk.next;
    let n = layout::tray_count(l);
    let count = step_layers(total, walk, budget);
    range::rows_are_symbols(
        c,
        n as usize,
        total as usize,
        first as usize,
        count as usize,
    )
}

// The number of a call's refusal, 0 for none.
pub fn refusal(l: Layout, c: &[u16], walk: Walk, budget: u64) -> u8
    ensures { result ≡ scrub_refusal gf257 l c.now walk budget }
{
    if !layout::admitted(ORDER as u32, l) {
        return 1;
    }
    let total = layout::layer_count(l);
    if c.len() != layout::tray_count(l) as usize * total as usize {
        return 2;
    }
    if !takes(total, walk) {
        return 3;
    }
    if !step_symbols(l, total, c, walk, budget) {
        return 3;
    }
    0
}
