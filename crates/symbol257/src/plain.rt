// The symbols as plain numbers, by the names that the first field has too: what the code above is written in. Promises the sums, differences, products and
// powers of the elements that the numbers stand for (algebra/specs/Plain.antt).
ghost use Rattle.std.specs.Prelude.{◌≡◌, ℕ, ◌+◌, ◌<◌, ◌≤◌};
ghost use Rattle.algebra.specs.Field.{Ops};
ghost use Rattle.algebra.specs.Plain.{reduced, plus, minus, times, raised, root_power};
ghost use Rattle.symbol257.specs.Elem.{gf257};

use crate::Symbol;
use crate::powers::power_at;

// The number of symbols.
pub const SIZE: usize = 257;

// Less one.
pub const MINUS_ONE: u16 = 256;

// The root.
pub const ROOT: u16 = Symbol::ROOT.0;

// The number of its powers.
pub const ORDER: usize = Symbol::ORDER;

// A number as the place of its symbol in a table of all.
pub fn index(a: u16) -> usize
    ensures { (result ≡ reduced gf257 a) × (result < gf257.coding.size) }
{
    (a % Symbol::PRIME) as usize
}

// A number with room for a product.
fn wide(x: u16) -> u32
    ensures { result ≡ x }
{
    x as u32
}

pub fn sum(a: u16, b: u16) -> u16
    ensures { result ≡ plus gf257 a b }
{
    (a % Symbol::PRIME + b % Symbol::PRIME) % Symbol::PRIME
}

pub fn difference(a: u16, b: u16) -> u16
    ensures { result ≡ minus gf257 a b }
{
    (a % Symbol::PRIME + (Symbol::PRIME - b % Symbol::PRIME)) % Symbol::PRIME
}

// A product that need not be reduced, and a sum with such a one (lazy reduction). 256 is less one modulo 257, so that of the four bytes of the whole product two are
// added and two taken away. No branch and only 16-bit numbers after the product, so that a loop over it can be vectorised.
pub fn lazy_product(a: u16, b: u16) -> u16
    ensures { (gf257.coding.elem result ≡ gf257.ops.mul (gf257.coding.elem a) (gf257.coding.elem b)) × (result ≤ 1024) }
{
    let x = wide(a) * wide(b);
    let low = (x % 65536) as u16;
    let high = (x / 65536) as u16;
    low % 256 + high % 256 + 2 * Symbol::PRIME - low / 256 - high / 256
}

pub fn lazy_sum(a: u16, b: u16) -> u16
    requires { b ≤ 1024 }
    ensures { gf257.coding.elem result ≡ gf257.ops.add (gf257.coding.elem a) (gf257.coding.elem b) }
{
    a % 256 + b + Symbol::PRIME - a / 256
}

// A number added to a sum of few small ones.
pub fn gather(a: u16, b: u16) -> u16
    requires { a + b < 65536 }
    ensures { (gf257.coding.elem result ≡ gf257.ops.add (gf257.coding.elem a) (gf257.coding.elem b)) × ((m : ℕ) → gf257.coding.size ≤ m → a + b ≤ m → result ≤ m) }
{
    a + b
}

// The symbol that a number stands for.
pub fn settle(a: u16) -> u16
    ensures { result ≡ reduced gf257 a }
{
    a % Symbol::PRIME
}

pub fn product(a: u16, b: u16) -> u16
    ensures { result ≡ times gf257 a b }
{
    settle(lazy_product(a, b))
}

// A number plus a product.
pub fn sum_product(a: u16, x: u16, y: u16) -> u16
    ensures { result ≡ plus gf257 a (times gf257 x y) }
{
    settle(lazy_sum(a, lazy_product(x, y)))
}

// The exponent is halved at each call.
pub fn power(x: u16, e: u32) -> u16
    ensures { result ≡ raised gf257 x e }
{
    if e == 0 {
        return 1;
    }
    let h = power(product(x, x), e / 2);
    if e % 2 == 1 { product(x, h) } else { h }
}

pub fn root_power(e: usize) -> u16
    ensures { result ≡ root_power gf257 e }
{
    power_at(e % Symbol::ORDER)
}
