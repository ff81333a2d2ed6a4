// Repair cards (document 02, W13) over any field: what a right card is, and the grounds of a card's calls that hang on numbers alone. Promises, for E = 0, that for each lost
// tray, helpers and group exactly one card is right, that its multipliers are what the rule of repair makes of single symbols, and that a repair by a right card is document
// 01's, on any shares (proofs/Right.antt); and that each test answers exactly what its definition says.
#![tactic(auto)]

ghost use Rattle.std.specs.Prelude.{◌≡◌};
ghost use Rattle.layout.specs.Layout.{admissible_with, Cabinet};
ghost use Rattle.card.specs.Grounds.{in_layout, helpers_ground};

use layout::Layout;

// Whether the layout is admissible and has E = 0: the first ground of every call of cards.
pub fn admits(order: u32, l: Layout) -> bool
    ensures { result ≡ admissible_with order 0 l }
{
    layout::admitted_with(order, 0, l)
}

// Whether a tray, the helpers and a group are numbers of the layout.
pub fn in_layout(l: Layout, x: u32, helpers: &[u32], group: u64) -> bool
    requires { Cabinet l }
    ensures { result ≡ in_layout l x helpers.now group }
{
    let b = l.racks;
    if layout::tray_count(l) <= x {
        return false;
    }
    if !lists::all_below(helpers, b) {
        return false;
    }
    group < layout::group_count(l) as u64
}

// The first ground that the helpers give as a list: 4, 5 or 6, 0 for none.
pub fn helpers_ground(l: Layout, x: u32, helpers: &[u32]) -> u8
    requires { Cabinet l }
    ensures { result ≡ helpers_ground l x helpers.now }
{
    let u = l.size;
    let d = l.helpers;
    if !lists::strictly_rising(helpers) {
        return 4;
    }
    if helpers.len() != d as usize {
        return 5;
    }
    if !lists::is_absent(helpers, x / u) {
        return 6;
    }
    0
}
