// The symbols as plain numbers, by the names that the second field has too: what the code above is written in. Promises the sums, differences, products and
// powers of the elements that the numbers stand for (algebra/specs/Plain.antt).
ghost use Rattle.std.specs.Prelude.{◌≡◌, ℕ, ◌+◌, ◌<◌, ◌≤◌};
ghost use Rattle.algebra.specs.Field.{Ops};
ghost use Rattle.algebra.specs.Plain.{reduced, plus, minus, times, raised, root_power};
ghost use Rattle.symbol.specs.Elem.{gf256};

use crate::Symbol;

// The number of symbols.
pub const SIZE: usize = 256;

// Less one.
pub const MINUS_ONE: u8 = 1;

// The root.
pub const ROOT: u8 = Symbol::ROOT.0;

// The number of its powers.
pub const ORDER: usize = Symbol::ORDER;

// A number as the place of its symbol in a table of all.
pub fn index(a: u8) -> usize
    ensures { (result ≡ reduced gf256 a) × (result < gf256.coding.size) }
{
    a as usize
}

pub fn sum(a: u8, b: u8) -> u8
    ensures { result ≡ plus gf256 a b }
{
    Symbol(a).add(Symbol(b)).0
}

pub fn difference(a: u8, b: u8) -> u8
    ensures { result ≡ minus gf256 a b }
{
    Symbol(a).add(Symbol(b)).0
}

pub fn product(a: u8, b: u8) -> u8
    ensures { result ≡ times gf256 a b }
{
    Symbol(a).mul(Symbol(b)).0
}

// A product that need not be reduced, and a sum with such a one (lazy reduction). A byte always is.
pub fn lazy_product(a: u8, b: u8) -> u8
    ensures { (gf256.coding.elem result ≡ gf256.ops.mul (gf256.coding.elem a) (gf256.coding.elem b)) × (result ≤ 1024) }
{
    product(a, b)
}

pub fn lazy_sum(a: u8, b: u8) -> u8
    requires { b ≤ 1024 }
    ensures { gf256.coding.elem result ≡ gf256.ops.add (gf256.coding.elem a) (gf256.coding.elem b) }
{
    sum(a, b)
}

// A number added to a sum of few small ones.
pub fn gather(a: u8, b: u8) -> u8
    requires { a + b < 65536 }
    ensures { (gf256.coding.elem result ≡ gf256.ops.add (gf256.coding.elem a) (gf256.coding.elem b)) × ((m : ℕ) → gf256.coding.size ≤ m → a + b ≤ m → result ≤ m) }
{
    sum(a, b)
}

// The symbol that a number stands for.
pub fn settle(a: u8) -> u8
    ensures { result ≡ reduced gf256 a }
{
    a
}

// A number plus a product.
pub fn sum_product(a: u8, x: u8, y: u8) -> u8
    ensures { result ≡ plus gf256 a (times gf256 x y) }
{
    sum(a, product(x, y))
}

pub fn power(x: u8, e: u32) -> u8
    ensures { result ≡ raised gf256 x e }
{
    Symbol(x).power(e).0
}

pub fn root_power(e: usize) -> u8
    ensures { result ≡ root_power gf256 e }
{
    Symbol::root_power(e).0
}
