// The symbols: the field of 256 by the polynomial x^8 + x^4 + x^3 + x^2 + 1 with the root 2, as numbers below 256. Promises that each function gives the
// definition's sum, product, inverse or power for every symbol (specs/Arithmetic.antt), and that the symbols are a field whose root has the order 255
// (proofs/Elem.antt).
#![tactic(auto)]

pub mod logs;
pub mod plain;
pub mod powers;
pub mod shift_add;

ghost use Rattle.std.specs.Prelude.{◌≡◌};
ghost use Rattle.algebra.specs.Field.{Ops};
ghost use Rattle.algebra.specs.Plain.{PowersIn, LogsIn};
ghost use Rattle.symbol.specs.Arithmetic.{◌⊕◌, ◌⊗◌, power, zpow};
ghost use Rattle.symbol.specs.Elem.{gf256};

use logs::all_logs;
use plain::index;
use powers::{all_powers, power_at};
use shift_add::product;

// A symbol.
#[derive(Clone, Copy)]
pub struct Symbol(pub u8);

impl Symbol {
    // x^8 + x^4 + x^3 + x^2 + 1, a bit for each power.
    pub const POLY: u16 = 0x11D;

    // The root z.
    pub const ROOT: Symbol = Symbol(2);

    // The number of its powers.
    pub const ORDER: usize = 255;

    pub fn add(self, o: Symbol) -> Symbol
        ensures { result.0 ≡ self.0 ⊕ o.0 }
    {
        Symbol(self.0 ^ o.0)
    }

    pub fn mul(self, o: Symbol) -> Symbol
        ensures { result.0 ≡ self.0 ⊗ o.0 }
    {
        Symbol(product(self.0, o.0))
    }

    // The inverse, by the two tables; of zero, zero.
    pub fn inverse(self) -> Symbol
        ensures { gf256.coding.elem result.0 ≡ gf256.ops.inv (gf256.coding.elem self.0) }
    {
        let logs = all_logs();
        let powers = all_powers();
        self.inverse_by(&logs, &powers)
    }

    // The same with the tables lent, for whoever inverts many: a constant table is copied wherever it is named.
    pub fn inverse_by(self, logs: &[u8], powers: &[u8]) -> Symbol
        requires { LogsIn gf256 logs.now × PowersIn gf256 powers.now }
        ensures { gf256.coding.elem result.0 ≡ gf256.ops.inv (gf256.coding.elem self.0) }
    {
        let x = index(self.0);
        if x == 0 {
            return Symbol(0);
        }
        let i = logs[x] as usize;
        Symbol(powers[(Symbol::ORDER - i) % Symbol::ORDER])
    }

    // The exponent is halved at each call.
    pub fn power(self, e: u32) -> Symbol
        ensures { result.0 ≡ power self.0 e }
    {
        if e == 0 {
            return Symbol(1);
        }
        let h = self.mul(self).power(e / 2);
        if e % 2 == 1 { self.mul(h) } else { h }
    }

    // A power of the root, by the table.
    pub fn root_power(e: usize) -> Symbol
        ensures { result.0 ≡ zpow e }
    {
        Symbol(power_at(e % Symbol::ORDER))
    }
}
