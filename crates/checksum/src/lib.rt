// The checksum of bytes: CRC-64 as xz has it. Promises the number that the definition gives (specs/Checksum.antt): the remainder by the
// polynomial of ECMA-182, in parts as in one go (specs/Claims.antt).
#![tactic(auto)]

mod table;

ghost use Rattle.std.specs.Prelude.{◌≡◌, ◌+◌, ◌*◌, ◌%◌, ◌<◌, ◌≤◌, length, get_or, take, drop};
ghost use Rattle.symbol.specs.Arithmetic.{◌⊕◌};
ghost use Rattle.checksum.specs.Checksum.{steps, fed, checksum_of};
ghost use Rattle.checksum.specs.Inner.{Table, Tables};

use table::table;

// What the steps of table k make of the lowest byte of r, with a byte added.
fn entry(t: &[u64], k: usize, r: u64, b: u8) -> u64
    requires { Table t.now k }
    ensures { result ≡ steps (8 * k + 8) (r % 256 ⊕ b) }
{
    let x = (r % 256) as u8 ^ b;
    t[k * 32 + (x / 16) as usize] ^ t[k * 32 + 16 + (x % 16) as usize]
}

// A byte fed.
fn one(t: &[u64], r: u64, b: u8) -> u64
    requires { Table t.now 0 }
    ensures { result ≡ steps 8 (r ⊕ b) }
{
    entry(t, 0, r, b) ^ (r >> 8)
}

// The bytes fed, one after the other.
fn by_ones(t: &[u64], start: u64, bytes: &[u8]) -> u64
    requires { Table t.now 0 }
    ensures { result ≡ fed start bytes.now }
{
    let mut r = start;
    for byte in bytes {
        r = one(t, r, *byte);
    }
    r
}

// Eight bytes fed at once.
fn eight(t: &[u64], r: u64, bytes: &[u8], i: usize) -> u64
    requires { Tables t.now 8 × (i + 8 ≤ length bytes.now) }
    ensures { result ≡ fed r (take 8 (drop i bytes.now)) }
{
    let a = entry(t, 7, r, bytes[i]) ^ entry(t, 6, r >> 8, bytes[i + 1]);
    let b = entry(t, 5, r >> 16, bytes[i + 2]) ^ entry(t, 4, r >> 24, bytes[i + 3]);
    let c = entry(t, 3, r >> 32, bytes[i + 4]) ^ entry(t, 2, r >> 40, bytes[i + 5]);
    let d = entry(t, 1, r >> 48, bytes[i + 6]) ^ entry(t, 0, r >> 56, bytes[i + 7]);
    a ^ (b ^ (c ^ d))
}

// All bytes fed, eight at a time and then the rest.
fn by_eights(t: &[u64], start: u64, bytes: &[u8]) -> u64
    requires { Tables t.now 8 }
    ensures { result ≡ fed start bytes.now }
{
    let mut r = start;
    let mut i = 0;
    // No plainer: the place goes on by eight, and the rest begins where the loop ends.
    while 8 <= bytes.len() - i {
        r = eight(t, r, bytes, i);
        i += 8;
    }
    by_ones(t, r, &bytes[i..])
}

// The checksum of bytes that follow those of which start is the checksum; of the first ones start is 0.
pub fn checksum(start: u64, bytes: &[u8]) -> u64
    ensures { result ≡ checksum_of start bytes.now }
{
    let t = table();
    by_eights(&t, start ^ 0xFFFF_FFFF_FFFF_FFFF, bytes) ^ 0xFFFF_FFFF_FFFF_FFFF
}
