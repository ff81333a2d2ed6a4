// Layouts: the five numbers of a cabinet, which of them documents 01 and 02 admit, and the numbers that follow. Promises the definitions of specs/Layout.antt
// for all 32-bit values, with no sum or product that wraps. A rack, a tray and a layer number are kinds of their own.
#![tactic(auto)]

pub mod power;

ghost use Rattle.std.specs.Prelude.{◌≡◌, ◌+◌, ◌*◌, ◌/◌, ◌%◌, ◌^◌, ◌<◌, ◌≤◌};
ghost use Rattle.algebra.specs.Layers.{digit, group_of, layer_of};
ghost use Rattle.layout.specs.Layout.{size_allowed, admissible, admissible_with, lost_count_fits, trays, checks, digits, layers, groups, layer_limit, Cabinet, measured};
ghost use Rattle.layout.specs.Inner.{InGroup, HasLayer};

use power::capped_power;

// The limits on the trays of a cabinet and the layers of a tray (document 02, W4).
pub const TRAYS: u32 = 60;

pub const LAYERS: u32 = 4096;

// Document 01's B, u, k and d, and document 02's E (W12): any 32-bit values.
#[repr(C)]
#[derive(Clone, Copy, PartialEq, Eq)]
pub struct Layout {
    pub racks: u32,
    pub size: u32,
    pub dimension: u32,
    pub helpers: u32,
    pub errors: u32,
}

// The number of a rack.
#[derive(Clone, Copy)]
pub struct Rack(u32);

impl Rack {
    pub fn of(n: u32) -> Rack
        ensures { result.0 ≡ n }
    {
        Rack(n)
    }

    pub fn number(self) -> u32
        ensures { result ≡ self.0 }
    {
        self.0
    }
}

// The number of a tray.
#[derive(Clone, Copy)]
pub struct Tray(u32);

impl Tray {
    pub fn of(n: u32) -> Tray
        ensures { result.0 ≡ n }
    {
        Tray(n)
    }

    pub fn number(self) -> u32
        ensures { result ≡ self.0 }
    {
        self.0
    }
}

// The number of a layer.
#[derive(Clone, Copy)]
pub struct Layer(u32);

impl Layer {
    pub fn of(n: u32) -> Layer
        ensures { result.0 ≡ n }
    {
        Layer(n)
    }

    pub fn number(self) -> u32
        ensures { result ≡ self.0 }
    {
        self.0
    }
}

// What the layout call answers.
#[derive(Drop)]
pub enum Measured {
    Known {
        layers: u32,
        checks: u32,
        traffic: u32,
    },
    Refused(u8),
}

// The rack sizes for which the field has points.
fn size_allowed(order: u32, u: u32) -> bool
    ensures { result ≡ size_allowed order u }
{
    if u == 0 {
        return false;
    }
    u * (order / u) == order
}

// Whether a layout is admissible for a field whose root has so many powers.
pub fn admitted(order: u32, l: Layout) -> bool
    ensures { result ≡ admissible order l }
{
    let b = l.racks;
    let u = l.size;
    let k = l.dimension;
    let d = l.helpers;
    let e = l.errors;
    if b < 2 {
        return false;
    }
    if !size_allowed(order, u) {
        return false;
    }
    if TRAYS < b {
        return false;
    }
    if TRAYS < u {
        return false;
    }
    let n = b * u;
    if TRAYS < n {
        return false;
    }
    if k < u {
        return false;
    }
    if n < k {
        return false;
    }
    if n - k < u {
        return false;
    }
    if 1 < e {
        return false;
    }
    let whole = k / u;
    if d < whole + 2 * e {
        return false;
    }
    if b <= d {
        return false;
    }
    if LAYERS < capped_power(d - 2 * e - whole + 1, b) {
        return false;
    }
    true
}

// The same for one E only.
pub fn admitted_with(order: u32, errors: u32, l: Layout) -> bool
    ensures { result ≡ admissible_with order errors l }
{
    let e = l.errors;
    if e != errors {
        return false;
    }
    admitted(order, l)
}

// L, the number of layers.
pub fn layer_count(l: Layout) -> u32
    requires { Cabinet l }
    ensures { result ≡ layers l }
{
    capped_power(digit_count(l), l.racks)
}

// s, the base of a layer's digits.
pub fn digit_count(l: Layout) -> u32
    requires { Cabinet l }
    ensures { result ≡ digits l }
{
    l.helpers - 2 * l.errors - l.dimension / l.size + 1
}

// n, the number of trays.
pub fn tray_count(l: Layout) -> u32
    requires { Cabinet l }
    ensures { result ≡ trays l }
{
    l.racks * l.size
}

// r, the number of checks of a layer.
pub fn check_count(l: Layout) -> u32
    requires { Cabinet l }
    ensures { result ≡ checks l }
{
    l.racks * l.size - l.dimension
}

// L/s, the number of groups for a host rack.
pub fn group_count(l: Layout) -> u32
    requires { Cabinet l }
    ensures { result ≡ groups l }
{
    layer_count(l) / digit_count(l)
}

// Whether so many lost trays of one rack can be repaired: 1 to u - v.
pub fn lost_count_fits(l: Layout, count: usize) -> bool
    requires { Cabinet l }
    ensures { result ≡ lost_count_fits l count }
{
    let u = l.size;
    let k = l.dimension;
    if count < 1 {
        return false;
    }
    if ((u - k % u) as usize) < count {
        return false;
    }
    true
}

// Digit i of layer j, in base s; digit 0 is the lowest.
pub fn digit_at(s: u32, j: u32, i: u32) -> u32
    requires { (1 ≤ s) × (s ^ i ≤ layer_limit) }
    ensures { result ≡ digit s j i }
{
    j / capped_power(s, i) % s
}

// The layer of group p with digit a, for the host rack h.
pub fn layer_of(l: Layout, h: u32, p: u32, a: u32) -> u32
    requires { InGroup l h p a }
    ensures { (result ≡ layer_of (digits l) h p a) × (result < layers l) }
{
    let s = digit_count(l);
    let q = capped_power(s, h);
    (p / q * s + a) * q + p % q
}

// The group of layer j, for the host rack h.
pub fn group_of(l: Layout, h: u32, j: u32) -> u32
    requires { HasLayer l h j }
    ensures { result ≡ group_of (digits l) h j }
{
    let s = digit_count(l);
    let q = capped_power(s, h);
    j % q + q * (j / (q * s))
}

// The layout call: L, r and the traffic of a repair, or 1.
pub fn measure(order: u32, l: Layout) -> Measured
    ensures { result ≡ measured order l }
{
    let helpers = l.helpers;
    if !admitted(order, l) {
        return Measured::Refused(1);
    }
    Measured::Known {
        layers: layer_count(l),
        checks: check_count(l),
        traffic: helpers * group_count(l),
    }
}
