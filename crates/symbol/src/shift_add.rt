// The product by shifting and adding, a bit of the second factor at a time: no table is read and no branch taken, so that a loop over it can be
// vectorised.
ghost use Rattle.std.specs.Prelude.{◌≡◌, ◌*◌, ◌/◌, ◌%◌, ◌^◌, ◌<◌};
ghost use Rattle.symbol.specs.Arithmetic.{◌⊗◌, mulz};

use crate::Symbol;

// z times a symbol: shifted up by a bit, less the polynomial where a bit went over the top.
pub fn twice(a: u8) -> u8
    ensures { result ≡ mulz a }
{
    (a << 1) ^ (std::num::wrapping_sub_u8(0, a >> 7) & (Symbol::POLY % 256) as u8)
}

// a where bit k of b is set, else 0.
pub fn masked(a: u8, b: u8, k: u32) -> u8
    requires { k < 8 }
    ensures { result ≡ b / 2 ^ k % 2 * a }
{
    a & std::num::wrapping_sub_u8(0, (b >> k) & 1)
}

// The product of two symbols.
pub fn product(a: u8, b: u8) -> u8
    ensures { result ≡ a ⊗ b }
{
    let a1 = twice(a);
    let a2 = twice(a1);
    let a3 = twice(a2);
    let a4 = twice(a3);
    let a5 = twice(a4);
    let a6 = twice(a5);
    let a7 = twice(a6);
    let low = masked(a, b, 0) ^ (masked(a1, b, 1) ^ (masked(a2, b, 2) ^ masked(a3, b, 3)));
    let high = masked(a4, b, 4) ^ (masked(a5, b, 5) ^ (masked(a6, b, 6) ^ masked(a7, b, 7)));
    low ^ high
}
