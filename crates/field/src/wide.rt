// 16-bit numbers as those of the field modulo 257.
ghost use Rattle.std.specs.Prelude.{◌≡◌, refl};
ghost use Rattle.std.proofs.Common.{lit≤};
ghost use Rattle.field.specs.Themselves.{themselves};
ghost use Rattle.symbol257.specs.Elem.{gf257};
ghost use Rattle.symbol257.proofs.Working.{working};

use crate::FieldNumber;
use symbol257::logs::all_logs;
use symbol257::powers::all_powers;
use symbol257::{Symbol, plain};

impl FieldNumber for u16 {
    ghost SIZE = { 257 };

    ghost ORDER = { 256 };

    const SIZE: usize = plain::SIZE;

    const ORDER: usize = plain::ORDER;

    ghost field = { gf257 };

    ghost code = { λ x. x };

    ghost codes = { λ xs. xs };

    ghost working = { working };

    ghost order_is = { refl };

    ghost small = { lit≤ tt };

    ghost numbers = { themselves };

    ghost narrow = { lit≤ tt };

    fn zero() -> u16 {
        0
    }

    fn one() -> u16 {
        1
    }

    fn minus_one() -> u16 {
        plain::MINUS_ONE
    }

    fn index(self) -> usize {
        plain::index(self)
    }

    fn is_below(self, o: u16) -> bool {
        self < o
    }

    fn is_symbol(self) -> bool {
        (self as usize) < plain::SIZE
    }

    fn sum(self, o: u16) -> u16 {
        plain::sum(self, o)
    }

    fn difference(self, o: u16) -> u16 {
        plain::difference(self, o)
    }

    fn product(self, o: u16) -> u16 {
        plain::product(self, o)
    }

    fn lazy_product(self, o: u16) -> u16 {
        plain::lazy_product(self, o)
    }

    fn lazy_sum(self, o: u16) -> u16 {
        plain::lazy_sum(self, o)
    }

    fn gather(self, o: u16) -> u16 {
        plain::gather(self, o)
    }

    fn settle(self) -> u16 {
        plain::settle(self)
    }

    fn sum_product(self, x: u16, y: u16) -> u16 {
        plain::sum_product(self, x, y)
    }

    fn power(self, e: u32) -> u16 {
        plain::power(self, e)
    }

    fn root_power(e: usize) -> u16 {
        plain::root_power(e)
    }

    // The two tables are copied once for all of them.
    fn invert(out: &mut [u16], to: usize, len: usize) {
        let logs = all_logs();
        let powers = all_powers();
        for j in 0..len {
            out[to + j] = Symbol(out[to + j]).inverse_by(&logs, &powers).0;
        }
    }
}
