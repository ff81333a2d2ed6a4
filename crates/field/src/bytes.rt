// Bytes as the numbers of the field of 256.
ghost use Rattle.std.specs.Prelude.{◌≡◌, refl};
ghost use Rattle.std.proofs.Common.{lit≤};
ghost use Rattle.field.specs.Themselves.{themselves};
ghost use Rattle.symbol.specs.Elem.{gf256};
ghost use Rattle.symbol.proofs.Working.{working};

use crate::FieldNumber;
use symbol::logs::all_logs;
use symbol::powers::all_powers;
use symbol::{Symbol, plain};

impl FieldNumber for u8 {
    ghost SIZE = { 256 };

    ghost ORDER = { 255 };

    const SIZE: usize = plain::SIZE;

    const ORDER: usize = plain::ORDER;

    ghost field = { gf256 };

    ghost code = { λ x. x };

    ghost codes = { λ xs. xs };

    ghost working = { working };

    ghost order_is = { refl };

    ghost small = { lit≤ tt };

    ghost numbers = { themselves };

    ghost narrow = { lit≤ tt };

    fn zero() -> u8 {
        0
    }

    fn one() -> u8 {
        1
    }

    fn minus_one() -> u8 {
        plain::MINUS_ONE
    }

    fn index(self) -> usize {
        plain::index(self)
    }

    fn is_below(self, o: u8) -> bool {
        self < o
    }

    fn is_symbol(self) -> bool {
        (self as usize) < plain::SIZE
    }

    fn sum(self, o: u8) -> u8 {
        plain::sum(self, o)
    }

    fn difference(self, o: u8) -> u8 {
        plain::difference(self, o)
    }

    fn product(self, o: u8) -> u8 {
        plain::product(self, o)
    }

    fn lazy_product(self, o: u8) -> u8 {
        plain::lazy_product(self, o)
    }

    fn lazy_sum(self, o: u8) -> u8 {
        plain::lazy_sum(self, o)
    }

    fn gather(self, o: u8) -> u8 {
        plain::gather(self, o)
    }

    fn settle(self) -> u8 {
        plain::settle(self)
    }

    fn sum_product(self, x: u8, y: u8) -> u8 {
        plain::sum_product(self, x, y)
    }

    fn power(self, e: u32) -> u8 {
        plain::power(self, e)
    }

    fn root_power(e: usize) -> u8 {
        plain::root_power(e)
    }

    // The two tables are copied once for all of them.
    fn invert(out: &mut [u8], to: usize, len: usize) {
        let logs = all_logs();
        let powers = all_powers();
        for j in 0..len {
            out[to + j] = Symbol(out[to + j]).inverse_by(&logs, &powers).0;
        }
    }
}
