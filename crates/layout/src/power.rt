// Powers of plain numbers, of two by a shift and of others by halving the exponent. Above the limit for L only that they are above it is known.
ghost use Rattle.std.specs.Prelude.{◌≡◌, ◌+◌, ◌^◌, min};
ghost use Rattle.layout.specs.Layout.{layer_limit};

use crate::LAYERS;

// The highest power of two that is not above the limit.
const HIGHEST: u32 = 12;

// base to the power e, or one more than the limit where it is above the limit.
pub fn capped_power(base: u32, e: u32) -> u32
    ensures { result ≡ min (base ^ e) (layer_limit + 1) }
{
    if base == 2 {
        return power_of_two(e);
    }
    by_halving(base, e)
}

// The same of two.
fn power_of_two(e: u32) -> u32
    ensures { result ≡ min (2 ^ e) (layer_limit + 1) }
{
    if HIGHEST < e {
        return LAYERS + 1;
    }
    1u32 << e
}

// The same of any number.
fn by_halving(base: u32, e: u32) -> u32
    ensures { result ≡ min (base ^ e) (layer_limit + 1) }
{
    if e == 0 {
        return 1;
    }
    if e == 1 {
        return capped(base as u64);
    }
    let root = by_halving(base, e / 2) as u64;
    let square = root * root;
    if e % 2 == 0 {
        return capped(square);
    }
    capped(square * base as u64)
}

// The smaller of x and one more than the limit.
fn capped(x: u64) -> u32
    ensures { result ≡ min x (layer_limit + 1) }
{
    if x <= LAYERS as u64 {
        x as u32
    } else {
        LAYERS + 1
    }
}
