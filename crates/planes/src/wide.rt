// The sum of rows of numbers modulo 257: row after row, for these do not add by bits.
use crate::SumRows;

impl SumRows for u16 {
    fn combine(
        found: &mut [u16],
        w: usize,
        m: usize,
        i: usize,
        sums: &[u16],
        coefs: &[u16],
        at: usize,
    ) {
        kernel::fill(found, i * w, w, 0);
        for t in 0..m {
            kernel::add_multiple(found, i * w, w, sums, t * w, coefs[at + t]);
        }
    }
}
