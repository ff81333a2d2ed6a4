// The loss margin: how many more trays may go before data are lost. For any bytes it answers the live trays, less k, or the first ground for
// refusing; a margin below zero is an answer. It runs from -k to n - k (proofs/Range.antt).
#![tactic(auto)]

ghost use Rattle.std.specs.Prelude.{◌≡◌, ◌<◌, ◌≤◌, eqb, pos, ◌-ℤ◌, length};
ghost use Rattle.lists.specs.Lists.{all_below};
ghost use Rattle.layout.specs.Layout.{tray_limit};
ghost use Rattle.margin.specs.Margin.{live, margin_refusal, margin_answer};

use layout::Layout;

// The states are 0 absent, 1 live and 2 demonstration.
const LIVE: u8 = 1;

const STATES: u8 = 2;

// The margin, or the refusal's number.
#[derive(Drop)]
pub enum LossMargin {
    Known(i32),
    Refused(u8),
}

// Whether a tray of this state counts.
fn counted(state: u8) -> bool
    ensures { result ≡ eqb state 1 }
{
    state == LIVE
}

// The trays that count.
fn live_count(states: &[u8]) -> u32
    requires { length states.now ≤ tray_limit }
    ensures { (result ≡ live states.now (length states.now)) × (result ≤ tray_limit) }
{
    let mut count = 0u32;
    // not by `filter` and `count`, which branch at each state: these sums the compiler adds up many at a time
    for state in states {
        count += counted(*state) as u32;
    }
    count
}

// One small number less another, below zero too.
fn difference(a: u32, b: u32) -> i32
    requires { (a ≤ tray_limit) × (b ≤ tray_limit) }
    ensures { result ≡ pos a -ℤ pos b }
{
    a as i32 - b as i32
}

// Whether every state is one of the three.
fn states_known(states: &[u8]) -> bool
    ensures { result ≡ all_below states.now 3 }
{
    states.iter().all(|state| *state <= STATES)
}

// The refusal, 0 for none.
fn margin_refusal(order: u32, l: Layout, states: &[u8]) -> u8
    ensures { result ≡ margin_refusal order l states.now }
{
    if !layout::admitted(order, l) {
        return 1;
    }
    if states.len() != layout::tray_count(l) as usize {
        return 2;
    }
    if !states_known(states) {
        return 3;
    }
    0
}

// The margin of a cabinet whose trays have these states, one byte a tray, in a field whose root has so many powers.
pub fn margin(order: u32, l: Layout, states: &[u8]) -> LossMargin
    ensures { result ≡ margin_answer order l states.now }
{
    let k = l.dimension;
    let refusal = margin_refusal(order, l, states);
    if refusal != 0 {
        return LossMargin::Refused(refusal);
    }
    LossMargin::Known(difference(live_count(states), k))
}
