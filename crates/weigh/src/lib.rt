// Sums over the places of racks of three and of five, each place times a power of its factor. The bits of the factors go from the highest down, so that a
// symbol is doubled once for all places together; the factors are written out, so that the compiler leaves out the bits that are not set. One loop a sum, with
// no branch or table.
#![tactic(auto)]

ghost use Rattle.std.specs.Prelude.{◌≡◌, ◌+◌, ◌<◌, ◌≤◌, length};
ghost use Rattle.symbol.specs.Elem.{gf256};
ghost use Rattle.kernel.specs.Inner.{Run};
ghost use Rattle.weigh.specs.Inner.{mix, three, five, Weighed};

use symbol::shift_add::{masked, twice};

// Four symbols times their factors.
fn mixed(a: u8, b: u8, c: u8, d: u8, p: u8, q: u8, r: u8, s: u8) -> u8
    ensures { result ≡ mix a b c d p q r s }
{
    let mut v = 0u8;
    for k in (0..8).rev() {
        v = twice(v) ^ ((masked(a, p, k) ^ masked(b, q, k)) ^ (masked(c, r, k) ^ masked(d, s, k)));
    }
    v
}

// A run plus two others times their factors.
fn sum_three(out: &mut [u8], len: usize, src: &[u8], from: usize, gap: usize, p: u8, q: u8)
    requires { (len ≤ length out.old) × (from + gap + gap + len ≤ length src.now) }
    ensures { Run (three src.now from gap p q) out.old out.new 0 len }
{
    for j in 0..len {
        out[j] = src[from + j]
            ^ mixed(
                src[from + gap + j],
                src[from + gap + gap + j],
                0,
                0,
                p,
                q,
                0,
                0,
            );
    }
}

// A run plus four others times their factors.
fn sum_five(
    out: &mut [u8],
    len: usize,
    src: &[u8],
    from: usize,
    gap: usize,
    p: u8,
    q: u8,
    r: u8,
    s: u8,
)
    requires { (len ≤ length out.old) × (from + gap + gap + gap + gap + len ≤ length src.now) }
    ensures { Run (five src.now from gap p q r s) out.old out.new 0 len }
{
    for j in 0..len {
        out[j] = src[from + j]
            ^ mixed(
                src[from + gap + j],
                src[from + gap + gap + j],
                src[from + gap + gap + gap + j],
                src[from + gap + gap + gap + gap + j],
                p,
                q,
                r,
                s,
            );
    }
}

// The sums of weight m over racks of three: the factors are 1, z^85 and z^170 to the power m. As z^170 is z^85 + 1, the sums of weight 2 are those of weight 1
// plus the last two places.
pub fn weigh_three(out: &mut [u8], len: usize, src: &[u8], from: usize, gap: usize, m: u32)
    requires { (len ≤ length out.old) × (from + gap + gap + len ≤ length src.now) × (m < 3) × (m ≡ 2 → Weighed gf256 3 1 src.now from gap len out.old) }
    ensures { Weighed gf256 3 m src.now from gap len out.new }
{
    match m {
        0 => sum_three(out, len, src, from, gap, 1, 1),
        1 => sum_three(out, len, src, from, gap, 214, 215),
        _ => {
            kernel::add(out, 0, len, src, from + gap);
            kernel::add(out, 0, len, src, from + gap + gap);
        }
    }
}

// The same over racks of five: the factors are 1, z^51, z^102, z^153 and z^204 to the power m.
pub fn weigh_five(out: &mut [u8], len: usize, src: &[u8], from: usize, gap: usize, m: u32)
    requires { (len ≤ length out.old) × (from + gap + gap + gap + gap + len ≤ length src.now) × (m < 5) }
    ensures { Weighed gf256 5 m src.now from gap len out.new }
{
    match m {
        0 => sum_five(out, len, src, from, gap, 1, 1, 1, 1),
        1 => sum_five(out, len, src, from, gap, 10, 68, 146, 221),
        2 => sum_five(out, len, src, from, gap, 68, 221, 10, 146),
        3 => sum_five(out, len, src, from, gap, 146, 10, 221, 68),
        _ => sum_five(out, len, src, from, gap, 221, 146, 68, 10),
    }
}
