// Codewords of document 01 in a buffer, over either field: the exponents of the points, where a symbol stands, and what a test answers (crate testing).
#![tactic(auto)]

ghost use Rattle.std.specs.Prelude.{◌≡◌, ◌+◌, ◌*◌, ◌<◌, ◌≤◌};
ghost use Rattle.layout.specs.Layout.{trays, tray_limit, layer_limit, Cabinet};
ghost use Rattle.codeword.specs.Inner.{exponent_at};

use layout::{Layer, Layout};

// What a test of a codeword answers.
#[derive(Drop)]
pub enum Tested {
    Sound,
    Bad { layer: Layer, check: u32 },
    Refused(u8),
}

// The exponent of the point of tray x in layer j, where the root has so many powers.
pub fn exponent(order: u32, l: Layout, x: u32, j: u32) -> u32
    requires { Cabinet l × (x < trays l) × (order ≤ 256) }
    ensures { (result ≡ exponent_at order l x j) × (result ≤ 4096) }
{
    let u = l.size;
    let s = layout::digit_count(l);
    let i = x / u;
    let a = layout::digit_at(s, j, i);
    let g = x % u;
    let step = order / u;
    i * s + a + g * step
}

// Where symbol j of tray x stands, in trays of so many layers.
pub fn cell(total: u32, x: u32, j: u32) -> usize
    requires { (total ≤ layer_limit) × (x < tray_limit) × (j < total) }
    ensures { result ≡ x * total + j }
{
    x as usize * total as usize + j as usize
}
