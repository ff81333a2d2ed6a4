// Kernels: loops over a run of symbols, one loop each with one step a symbol and no branch or table, so that the compiler does many symbols at a time.
// Each promises what its run holds afterwards and that every other symbol of the buffer is as it was. Beside them the inverses, which go by the symbol's
// tables, and the test for zeros, which stops early. All are written once, over the numbers of any field.
#![tactic(auto)]

ghost use Rattle.std.specs.Prelude.{◌≡◌, ◌+◌, ◌*◌, ◌%◌, ◌<◌, ◌≤◌, length, get_or};
ghost use Rattle.algebra.specs.Field.{Ops};
ghost use Rattle.algebra.specs.Coding.{InRange};
ghost use Rattle.kernel.specs.Inner.{Run, Standing, filled, copied, repeated, added, added_product, added_multiple, stepped, accrued, shifted, parted, inverted, sampled};
ghost use Rattle.kernel.specs.Inner.{Spaced, added_spaced, Spacing, apart, Grid, grid, Gridding, added_grid, Parts, all_zero};

use field::FieldNumber;

// The most symbols of a block.
pub const BLOCK: usize = 16;

// The symbol at a place.
pub fn at<N: FieldNumber>(xs: &[N], i: usize) -> N
    requires { i < length xs.now }
    ensures { N.code result ≡ get_or (N.codes xs.now) i 0 }
{
    xs[i]
}

// v at len places from the place `to` on.
pub fn fill<N: FieldNumber>(out: &mut [N], to: usize, len: usize, v: N)
    requires { to + len ≤ length out.old }
    ensures { Run (filled (N.code v)) (N.codes out.old) (N.codes out.new) to len }
{
    for j in 0..len {
        out[to + j] = v;
    }
}

// A copy of another buffer's run.
pub fn copy<N: FieldNumber>(out: &mut [N], to: usize, len: usize, src: &[N], from: usize)
    requires { (to + len ≤ length out.old) × (from + len ≤ length src.now) }
    ensures { Run (copied (N.codes src.now) from) (N.codes out.old) (N.codes out.new) to len }
{
    for j in 0..len {
        out[to + j] = src[from + j];
    }
}

// A copy of an earlier run of the same buffer.
pub fn repeat<N: FieldNumber>(out: &mut [N], to: usize, from: usize, len: usize)
    requires { (from + len ≤ to) × (to + len ≤ length out.old) }
    ensures { Run (copied (N.codes out.old) from) (N.codes out.old) (N.codes out.new) to len }
{
    for j in 0..len {
        out[to + j] = out[from + j];
    }
}

// The first so many symbols, again and again.
pub fn extend<N: FieldNumber>(row: &mut [N], period: usize, count: usize)
    requires { (count * period ≤ length row.old) × (0 < count) }
    ensures { Run (repeated (N.codes row.old) period) (N.codes row.old) (N.codes row.new) 0 (count * period) }
{
    let mut c = 1usize;
    // no plainer as a range: each turn doubles what stands, and the last one does less
    while c < count {
        let m = lists::smaller(c as u64, (count - c) as u64) as usize;
        repeat(row, c * period, 0, m * period);
        c += m;
    }
}

// Every step-th symbol of another buffer.
pub fn sample<N: FieldNumber>(out: &mut [N], to: usize, len: usize, src: &[N], step: usize)
    requires { (to + len ≤ length out.old) × (len * step ≤ length src.now) × (0 < step) }
    ensures { Run (sampled (N.codes src.now) step) (N.codes out.old) (N.codes out.new) to len }
{
    for j in 0..len {
        out[to + j] = src[j * step];
    }
}

// A run plus another buffer's.
pub fn add<N: FieldNumber>(out: &mut [N], to: usize, len: usize, src: &[N], from: usize)
    requires { (to + len ≤ length out.old) × (from + len ≤ length src.now) }
    ensures { Run (added N.field (N.codes out.old) to (N.codes src.now) from) (N.codes out.old) (N.codes out.new) to len }
{
    for j in 0..len {
        out[to + j] = out[to + j].sum(src[from + j]);
    }
}

// The sum of v and n symbols, so many places apart, not reduced.
fn gather_apart<N: FieldNumber>(v: N, src: &[N], at: usize, gap: usize, n: usize) -> N
    requires { InRange N.field.coding (N.codes src.now) × (at + n * gap < length src.now + gap) × (N.code v + n * N.field.coding.size < 65536) }
    ensures { (N.field.coding.elem (N.code result) ≡ N.field.ops.add (N.field.coding.elem (N.code v)) (apart N.field (N.codes src.now) at gap n)) × (N.code result ≤ N.code v + n * N.field.coding.size) }
{
    let mut sum = v;
    for b in 0..n {
        sum = sum.gather(src[at + b * gap]);
    }
    sum
}

// The sum of v and m times so many symbols, further apart.
fn gather_grid<N: FieldNumber>(
    v: N,
    src: &[N],
    at: usize,
    gap: usize,
    n: usize,
    far: usize,
    m: usize,
) -> N
    requires { InRange N.field.coding (N.codes src.now) × Grid (N.codes src.now) at gap n far m × (N.code v + m * n * N.field.coding.size < 65536) }
    ensures { N.field.coding.elem (N.code result) ≡ N.field.ops.add (N.field.coding.elem (N.code v)) (grid N.field (N.codes src.now) at gap n far m) }
{
    let mut sum = v;
    for g in 0..m {
        sum = gather_apart(sum, src, at + g * far, gap, n);
    }
    sum
}

// A run plus m times n runs of another buffer, all of symbols, with one reduction a symbol.
fn add_grid<N: FieldNumber>(
    out: &mut [N],
    to: usize,
    len: usize,
    src: &[N],
    from: usize,
    gap: usize,
    n: usize,
    far: usize,
    m: usize,
)
    requires { Gridding N.field (N.codes out.old) to len (N.codes src.now) from gap n far m }
    ensures { Run (added_grid N.field (N.codes out.old) to (N.codes src.now) from gap n far m) (N.codes out.old) (N.codes out.new) to len }
{
    for j in 0..len {
        out[to + j] = gather_grid(out[to + j], src, from + j, gap, n, far, m).settle();
    }
}

// The same, written to a buffer of its own.
fn gather_block<N: FieldNumber>(
    block: &mut [N],
    len: usize,
    out: &[N],
    to: usize,
    src: &[N],
    from: usize,
    gap: usize,
    n: usize,
    far: usize,
    m: usize,
)
    requires { Gridding N.field (N.codes out.now) to len (N.codes src.now) from gap n far m × (len ≤ length block.old) }
    ensures { Run (added_grid N.field (N.codes out.now) to (N.codes src.now) from gap n far m) (N.codes block.old) (N.codes block.new) 0 len }
{
    for j in 0..len {
        block[j] = gather_grid(out[to + j], src, from + j, gap, n, far, m).settle();
    }
}

// The same by way of a block of its own, which no other buffer can overlap, so that the compiler need not ask whether they do.
fn add_block<N: FieldNumber>(
    out: &mut [N],
    to: usize,
    len: usize,
    src: &[N],
    from: usize,
    gap: usize,
    n: usize,
    far: usize,
    m: usize,
)
    requires { Gridding N.field (N.codes out.old) to len (N.codes src.now) from gap n far m × (len ≤ 16) }
    ensures { Run (added_grid N.field (N.codes out.old) to (N.codes src.now) from gap n far m) (N.codes out.old) (N.codes out.new) to len }
{
    let mut block = [N::zero(); BLOCK];
    gather_block(&mut block, len, out, to, src, from, gap, n, far, m);
    copy(out, to, len, &block, 0);
}

// The same, block after block.
fn add_blocks<N: FieldNumber>(
    out: &mut [N],
    to: usize,
    len: usize,
    src: &[N],
    from: usize,
    gap: usize,
    n: usize,
    far: usize,
    m: usize,
    width: usize,
)
    requires { Gridding N.field (N.codes out.old) to len (N.codes src.now) from gap n far m × Parts len width × (0 < width) }
    ensures { Run (added_grid N.field (N.codes out.old) to (N.codes src.now) from gap n far m) (N.codes out.old) (N.codes out.new) to len }
{
    let mut j = 0usize;
    // no plainer by `step_by`: the proof goes by the place, which is a multiple of the width
    while j < len {
        add_block(out, to + j, width, src, from + j, gap, n, far, m);
        j += width;
    }
}

// The same in blocks of a width, or, with the width 0, all at once. The compiler makes the most of a width that is written out where this is called.
pub fn add_row<N: FieldNumber>(
    out: &mut [N],
    to: usize,
    len: usize,
    src: &[N],
    from: usize,
    gap: usize,
    n: usize,
    far: usize,
    m: usize,
    width: usize,
)
    requires { Gridding N.field (N.codes out.old) to len (N.codes src.now) from gap n far m × Parts len width }
    ensures { Run (added_grid N.field (N.codes out.old) to (N.codes src.now) from gap n far m) (N.codes out.old) (N.codes out.new) to len }
{
    if width == 0 {
        add_grid(out, to, len, src, from, gap, n, far, m);
        return;
    }
    add_blocks(out, to, len, src, from, gap, n, far, m, width);
}

// Every step-th symbol plus m times n symbols of another buffer; those for the next one begin `stride` places later.
pub fn add_spaced<N: FieldNumber>(
    out: &mut [N],
    to: usize,
    step: usize,
    len: usize,
    src: &[N],
    from: usize,
    stride: usize,
    gap: usize,
    n: usize,
    far: usize,
    m: usize,
)
    requires { Spacing N.field (N.codes out.old) to step len (N.codes src.now) from stride gap n far m }
    ensures { Spaced (added_spaced N.field (N.codes out.old) to step (N.codes src.now) from stride gap n far m) (N.codes out.old) (N.codes out.new) to step len }
{
    for j in 0..len {
        let v = gather_grid(out[to + j * step], src, from + j * stride, gap, n, far, m);
        out[to + j * step] = v.settle();
    }
}

// A run plus the products of two other buffers' runs.
pub fn add_product<N: FieldNumber>(
    out: &mut [N],
    to: usize,
    len: usize,
    src: &[N],
    from: usize,
    by: &[N],
    at: usize,
)
    requires { (to + len ≤ length out.old) × (from + len ≤ length src.now) × (at + len ≤ length by.now) }
    ensures { Run (added_product N.field (N.codes out.old) to (N.codes src.now) from (N.codes by.now) at) (N.codes out.old) (N.codes out.new) to len }
{
    for j in 0..len {
        out[to + j] = out[to + j].sum_product(src[from + j], by[at + j]);
    }
}

// A run plus another buffer's, times one symbol.
pub fn add_multiple<N: FieldNumber>(
    out: &mut [N],
    to: usize,
    len: usize,
    src: &[N],
    from: usize,
    v: N,
)
    requires { (to + len ≤ length out.old) × (from + len ≤ length src.now) }
    ensures { Run (added_multiple N.field (N.codes out.old) to (N.codes src.now) from (N.code v)) (N.codes out.old) (N.codes out.new) to len }
{
    for j in 0..len {
        out[to + j] = out[to + j].sum_product(src[from + j], v);
    }
}

// The current terms times their factors, and the products added to a run; neither is reduced.
pub fn accrue<N: FieldNumber>(out: &mut [N], to: usize, len: usize, cur: &mut [N], by: &[N])
    requires { (to + len ≤ length out.old) × (len ≤ length cur.old) × (len ≤ length by.now) }
    ensures standing { Standing N.field (accrued N.field (N.codes out.old) to (N.codes cur.old) (N.codes by.now)) (N.codes out.old) (N.codes out.new) to len }
    ensures standing_2 { Standing N.field (stepped N.field (N.codes cur.old) (N.codes by.now)) (N.codes cur.old) (N.codes cur.new) 0 len }
{
    for j in 0..len {
        let v = cur[j].lazy_product(by[j]);
        cur[j] = v;
        out[to + j] = out[to + j].lazy_sum(v);
    }
}

// What is carried, less a run times another buffer's; the run as it was is carried on.
pub fn shift<N: FieldNumber>(
    out: &mut [N],
    to: usize,
    len: usize,
    carry: &mut [N],
    by: &[N],
    at: usize,
)
    requires { (to + len ≤ length out.old) × (len ≤ length carry.old) × (at + len ≤ length by.now) }
    ensures run { Run (shifted N.field (N.codes out.old) to (N.codes carry.old) (N.codes by.now) at) (N.codes out.old) (N.codes out.new) to len }
    ensures run_2 { Run (copied (N.codes out.old) to) (N.codes carry.old) (N.codes carry.new) 0 len }
{
    for j in 0..len {
        let v = out[to + j];
        out[to + j] = carry[j].difference(v.product(by[at + j]));
        carry[j] = v;
    }
}

// A run times the differences of two runs of another buffer.
pub fn part<N: FieldNumber>(out: &mut [N], to: usize, len: usize, src: &[N], a: usize, b: usize)
    requires { (to + len ≤ length out.old) × (a + len ≤ length src.now) × (b + len ≤ length src.now) }
    ensures { Run (parted N.field (N.codes out.old) to (N.codes src.now) a b) (N.codes out.old) (N.codes out.new) to len }
{
    for j in 0..len {
        out[to + j] = out[to + j].product(src[a + j].difference(src[b + j]));
    }
}

// The inverses of the symbols of a run; of zero, zero.
pub fn invert<N: FieldNumber>(out: &mut [N], to: usize, len: usize)
    requires { to + len ≤ length out.old }
    ensures { Standing N.field (inverted N.field (N.codes out.old) to) (N.codes out.old) (N.codes out.new) to len }
{
    N::invert(out, to, len);
}

// Whether the first len symbols are zero.
pub fn all_zero<N: FieldNumber>(xs: &[N], len: usize) -> bool
    requires { len ≤ length xs.now }
    ensures { result ≡ all_zero N.field (N.codes xs.now) len }
{
    for j in 0..len {
        if xs[j].index() != 0 {
            return false;
        }
    }
    true
}
