// The sum of rows of bytes by the bits of their symbols, from the highest down: the sum is doubled once for all rows together, where a product doubles each row.
// The first field's alone: its numbers add by bits.
ghost use Rattle.std.specs.Prelude.{◌≡◌, ◌+◌, ◌*◌, ◌<◌, ◌≤◌, length};
ghost use Rattle.kernel.specs.Inner.{Run};
ghost use Rattle.planes.specs.Inner.{Rows, doubled, BitAdded, Plane, Upper};

use crate::SumRows;
use symbol::shift_add::twice;

// Twice a run.
fn double(out: &mut [u8], to: usize, len: usize)
    requires { to + len ≤ length out.old }
    ensures { Run (doubled out.old to) out.old out.new to len }
{
    for j in 0..len {
        out[to + j] = twice(out[to + j]);
    }
}

// Adds row t to row i where a bit is set.
fn add_bit(found: &mut [u8], w: usize, m: usize, i: usize, sums: &[u8], t: usize, b: u8)
    requires { (i < m) × (t < m) × (m * w ≤ length found.old) × (m * w ≤ length sums.now) × (b < 2) }
    ensures { BitAdded w t i b sums.now found.old found.new }
{
    if b != 0 {
        kernel::add(found, i * w, w, sums, t * w);
    }
}

// Adds the rows whose symbols have bit k to row i.
fn add_plane(
    found: &mut [u8],
    w: usize,
    m: usize,
    i: usize,
    sums: &[u8],
    coefs: &[u8],
    at: usize,
    k: u32,
)
    requires { Rows w m i found.old sums.now coefs.now at × (k < 8) }
    ensures { Plane w m i k sums.now coefs.now at found.old found.new }
{
    for t in 0..m {
        add_bit(found, w, m, i, sums, t, (coefs[at + t] >> k) & 1);
    }
}

impl SumRows for u8 {
    fn combine(
        found: &mut [u8],
        w: usize,
        m: usize,
        i: usize,
        sums: &[u8],
        coefs: &[u8],
        at: usize,
    ) {
        kernel::fill(found, i * w, w, 0);
        for k in (0..8).rev() {
            double(found, i * w, w);
            add_plane(found, w, m, i, sums, coefs, at, k);
        }
    }
}
