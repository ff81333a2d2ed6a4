// A block of groups of a repair of e lost trays, by the host's rack sums of the block. In each layer the e sums are one system for the e lost symbols; all
// layers of the block with one digit are solved at a time. Never looks at the old symbols of the lost trays. Promises that the block's layers of the spare are
// as the rule fixes them (`repaired_piece` in proofs/Repair.antt), and every other symbol as it was.
#![tactic(auto)]

ghost use Rattle.std.specs.Prelude.{◌≡◌, ◌+◌, ◌*◌, ◌<◌, ◌≤◌, length};
ghost use Rattle.symbol.specs.Elem.{gf256};
ghost use Rattle.kernel.specs.Inner.{Run};
ghost use Rattle.layout.specs.Layout.{digits, layers, Cabinet};
ghost use Rattle.syndrome.specs.Inner.{Room};
ghost use Rattle.codeword.specs.Codeword.{symbol_at};
ghost use Rattle.sums.specs.Inner.{Groups};
ghost use Rattle.group.specs.Inner.{spot, gathered, Inside, Scattered, InTray, Lying, Losing, LostPlaces, sound_symbol, PlaceTerms, Begun, Rests, PutRows};
ghost use Rattle.group.specs.Inner.{DigitRepaired, BlockRepaired, Repairing, Workspace};

use layout::Layout;

// Where the layers of a block with one digit lie in a tray: so many runs of consecutive layers, each as far behind the one before.
#[derive(Clone, Copy)]
struct Runs {
    start: usize,
    run: usize,
    count: usize,
    stride: usize,
}

// The runs of the layers with digit a. In runs of s^h the groups' layers are consecutive.
fn runs_of(l: Layout, h: u32, w: usize, first: u32, a: u32) -> Runs
    requires { Groups l w first × (h < l.racks) × (a < digits l) }
    ensures { Lying l h w first a result.start result.run result.count result.stride }
{
    let s = layout::digit_count(l) as usize;
    let q = blocks::block_width(l, h);
    let run = w.min(q);
    let start = layout::layer_of(l, h, first, a) as usize;
    Runs {
        start,
        run,
        count: w / run,
        stride: s * run,
    }
}

// A copy of another buffer's runs, one after another.
fn gather(out: &mut [u8], src: &[u8], start: usize, run: usize, count: usize, stride: usize)
    requires { Inside start run count stride (length src.now) × (count * run ≤ length out.old) }
    ensures { Run (gathered src.now start run stride) out.old out.new 0 (count * run) }
{
    for c in 0..count {
        kernel::copy(out, c * run, run, src, start + c * stride);
    }
}

// The way back.
fn scatter(
    out: &mut [u8],
    start: usize,
    run: usize,
    count: usize,
    stride: usize,
    src: &[u8],
    from: usize,
)
    requires { Inside start run count stride (length out.old) × (from + count * run ≤ length src.now) }
    ensures { Scattered start run stride (count * run) src.now from out.old out.new }
{
    for c in 0..count {
        kernel::copy(out, start + c * stride, run, src, from + c * run);
    }
}

// Writes the factors of the lost places.
fn fill_places(l: Layout, lost: &[u32], places: &mut [u8])
    requires { Cabinet l × (length lost.now ≤ length places.old) }
    ensures { LostPlaces gf256 l lost.now places.new }
{
    let u = l.size;
    for (i, tray) in lost.iter().enumerate() {
        kernel::fill(places, i, 1, points::place_power(l, *tray % u, 1));
    }
}

// Adds the terms of place g of the host rack.
fn place_terms(
    rests: &mut [u8],
    l: Layout,
    w: usize,
    e: usize,
    r: Runs,
    host: &[u8],
    g: u32,
    cur: &mut [u8],
    row: &mut [u8],
)
    requires { Cabinet l × InTray l w r.start r.run r.count r.stride × Room w e rests.old cur.old row.old × (length host.now ≡ l.size * layers l) × (g < l.size) }
    ensures { PlaceTerms gf256 l w e (λ j. symbol_at gf256 l host.now g (spot r.start r.run r.stride j)) g rests.old rests.new }
{
    let total = layout::layer_count(l) as usize;
    let start = g as usize * total + r.start;
    gather(cur, host, start, r.run, r.count, r.stride);
    let p = points::place_power(l, g, 1);
    kernel::fill(row, 0, w, p);
    syndrome::add_terms(rests, w, e, cur, row);
}

// Adds them unless the tray there is lost: its symbols are not looked at.
fn sound_terms(
    rests: &mut [u8],
    l: Layout,
    h: u32,
    lost: &[u32],
    w: usize,
    r: Runs,
    host: &[u8],
    g: u32,
    cur: &mut [u8],
    row: &mut [u8],
)
    requires { Losing l h lost.now host.now × InTray l w r.start r.run r.count r.stride × Room w (length lost.now) rests.old cur.old row.old × (g < l.size) }
    ensures { PlaceTerms gf256 l w (length lost.now)
        (λ j. sound_symbol gf256 l lost.now host.now (spot r.start r.run r.stride j) g) g rests.old rests.new }
{
    let u = l.size;
    if !lists::is_absent(lost, h * u + g) {
        return;
    }
    place_terms(rests, l, w, lost.len(), r, host, g, cur, row);
}

// Every s-th row of the sums, from row a on.
fn begin_rests(rests: &mut [u8], w: usize, e: usize, s: usize, a: usize, sums: &[u8])
    requires { (e * w ≤ length rests.old) × (e * s * w ≤ length sums.now) × (a < s) × (0 < w) }
    ensures { Begun gf256 w e s a sums.now rests.new }
{
    for m in 0..e {
        kernel::copy(rests, m * w, w, sums, (m * s + a) * w);
    }
}

// Less what the lost symbols of the layers with digit a must sum up to: the terms of the host's sound trays, less its sums.
fn fill_rests(
    rests: &mut [u8],
    l: Layout,
    h: u32,
    lost: &[u32],
    w: usize,
    a: u32,
    r: Runs,
    host: &[u8],
    sums: &[u8],
    cur: &mut [u8],
    row: &mut [u8],
)
    requires { Losing l h lost.now host.now × InTray l w r.start r.run r.count r.stride
        × Room w (length lost.now) rests.old cur.old row.old × (a < digits l) × (length lost.now * digits l * w ≤ length sums.now) }
    ensures { Rests gf256 l lost.now host.now w a r.start r.run r.stride sums.now rests.new }
{
    let u = l.size;
    let s = layout::digit_count(l) as usize;
    begin_rests(rests, w, lost.len(), s, a as usize, sums);
    for g in 0..u {
        sound_terms(rests, l, h, lost, w, r, host, g, cur, row);
    }
}

// Writes e rows of what was found, each into the runs of its tray.
fn put_rows(spare: &mut [u8], l: Layout, w: usize, e: usize, r: Runs, found: &[u8])
    requires { Cabinet l × InTray l w r.start r.run r.count r.stride × (length spare.old ≡ e * layers l) × (e * w ≤ length found.now) }
    ensures { PutRows (layers l) w r.start r.run r.stride found.now spare.old spare.new e }
{
    let total = layout::layer_count(l) as usize;
    let start = r.start;
    let run = r.run;
    let count = r.count;
    let stride = r.stride;
    for i in 0..e {
        scatter(spare, i * total + start, run, count, stride, found, i * w);
    }
}

// Repairs the layers of the block with digit a.
fn repair_digit(
    l: Layout,
    h: u32,
    lost: &[u32],
    host: &[u8],
    w: usize,
    first: u32,
    a: u32,
    sums: &[u8],
    rests: &mut [u8],
    found: &mut [u8],
    places: &[u8],
    coefs: &mut [u8],
    row: &mut [u8],
    cur: &mut [u8],
    spare: &mut [u8],
)
    requires { Repairing gf256 l h lost.now host.now w first sums.now × (a < digits l)
        × Workspace (length lost.now) w rests.old found.old places.now coefs.old row.old cur.old × LostPlaces gf256 l lost.now places.now
        × (length spare.old ≡ length lost.now * layers l) }
    ensures { DigitRepaired gf256 l h lost.now host.now w first sums.now a spare.old spare.new }
{
    let e = lost.len();
    let r = runs_of(l, h, w, first, a);
    fill_rests(rests, l, h, lost, w, a, r, host, sums, cur, row);
    columns::solve(found, w, 1, w, 1, e, rests, places, coefs, row);
    put_rows(spare, l, w, e, r, found);
}

// Repairs the lost trays' layers in a block of groups, by the host's sums of the block. The other buffers are room to work in.
pub fn repair_block(
    l: Layout,
    h: u32,
    lost: &[u32],
    host: &[u8],
    w: usize,
    first: u32,
    sums: &[u8],
    rests: &mut [u8],
    found: &mut [u8],
    places: &mut [u8],
    coefs: &mut [u8],
    row: &mut [u8],
    cur: &mut [u8],
    spare: &mut [u8],
)
    requires { Repairing gf256 l h lost.now host.now w first sums.now
        × Workspace (length lost.now) w rests.old found.old places.old coefs.old row.old cur.old × (length spare.old ≡ length lost.now * layers l) }
    ensures { BlockRepaired gf256 l h lost.now host.now w first sums.now (digits l) spare.old spare.new }
{
    let s = layout::digit_count(l);
    fill_places(l, lost, places);
    for a in 0..s {
        repair_digit(
            l, h, lost, host, w, first, a, sums, rests, found, places, coefs, row, cur, spare,
        );
    }
}
