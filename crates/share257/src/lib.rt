// Made by tools/twin.py from crates/share/src/lib.rt.
// A helper's shares for a host rack. A share of weight m has L/s symbols, each the sum over the layers of a group of the helper's rack sums, in which the tray at
// place g counts times the m-th power of its place's factor; document 01's share has m = 0, and e lost trays of one rack need those of m = 0 .. e - 1. Shares
// are built up tray by tray, or worked out from a whole rack. Promises, for every layout, number of shares, racks, tray and buffers, the first ground of refusal
// that applies, or the shares; a refused call changes no symbol.
#![tactic(auto)]

ghost use Rattle.std.specs.Prelude.{◌≡◌, true, cond, ◌&&◌, List, ℕ, ◌+◌, ◌%◌, ◌<◌, ◌≤◌, eqb, length, get_or};
ghost use Rattle.symbol257.specs.Elem.{gf257};
ghost use Rattle.layout.specs.Layout.{trays, groups, admissible, Cabinet};
ghost use Rattle.range.specs.Range.{symbols_from};
ghost use Rattle.share.specs.Many.{shares_of, shares_refusal, shares_buffer, fed_refusal, fed_buffer, many_refusal, many_buffer, add_many_refusal, add_many_buffer};
ghost use Rattle.kernel.specs.Inner.{Parts};
ghost use Rattle.share.specs.Inner.{grounds, CountsOf, RunsOf, InTrays, TraysAdded};
ghost use Rattle.share.specs.Inner.{cut, sum_at, Summing, Summed, Weighing, Added, Feeding, Rested, fed_trays, Gathering};

use layout::power::capped_power;
use layout::{Layout, Rack, Tray};
use symbol257::plain::ORDER;

// Runs shorter than this are added across. Longer ones are added in blocks, of kernel::BLOCK symbols or of so many, where the run is a multiple of that.
const SHORT: usize = 4;

// The most trays that are fed at once.
const AT_ONCE: u32 = 4;

// The numbers of a layout that a call needs again and again, worked out once.
#[derive(Clone, Copy)]
pub struct Counts {
    pub digits: u32,
    pub layers: u32,
    pub groups: u32,
}

pub fn counts_of(l: Layout) -> Counts
    requires { Cabinet l }
    ensures { CountsOf l result.digits result.layers result.groups }
{
    let s = layout::digit_count(l);
    let total = layout::layer_count(l);
    Counts {
        digits: s,
        layers: total,
        groups: total / s,
    }
}

// How a tray's layers lie for a host rack: for each of so many runs of consecutive groups one run of layers for each digit of that rack, one after another; and how
// many layers there are.
#[derive(Clone, Copy)]
pub struct HostRuns {
    pub digits: usize,
    pub length: usize,
    pub count: usize,
    pub layers: usize,
}

// The layers of s^h consecutive groups with the same digit are consecutive.
pub fn runs_of(l: Layout, n: Counts, h: u32) -> HostRuns
    requires { Cabinet l × (h < l.racks) × CountsOf l n.digits n.layers n.groups }
    ensures { RunsOf l h result.digits result.length result.count result.layers }
{
    let s = n.digits;
    let total = n.layers;
    let groups = n.groups;
    let length = capped_power(s, h);
    HostRuns {
        digits: s as usize,
        length: length as usize,
        count: (groups / length) as usize,
        layers: total as usize,
    }
}

// Adds the symbols of m trays, which lie one after another from the place `at` on: run after run of the sums, all digits and trays at once, in blocks of a width or,
// with the width 0, whole runs.
fn add_runs(
    s: usize,
    run: usize,
    count: usize,
    symbols: &[u16],
    at: usize,
    far: usize,
    m: usize,
    width: usize,
    sums: &mut [u16],
)
    requires { InTrays gf257 s run count symbols.now at far m sums.old × Parts run width }
    ensures { TraysAdded gf257 s run count symbols.now at far m sums.old sums.new }
{
    for q in 0..count {
        kernel::add_row(
            sums,
            q * run,
            run,
            symbols,
            at + q * s * run,
            run,
            s,
            far,
            m,
            width,
        );
    }
}

// The same for two digits and short blocks, with the number of trays written out: for each the compiler makes a loop in which all their symbols are added at once.
fn add_two_short(
    run: usize,
    count: usize,
    symbols: &[u16],
    at: usize,
    far: usize,
    m: usize,
    sums: &mut [u16],
)
    requires { InTrays gf257 2 run count symbols.now at far m sums.old × (run % 4 ≡ 0) }
    ensures { TraysAdded gf257 2 run count symbols.now at far m sums.old sums.new }
{
    if m == 1 {
        add_runs(2, run, count, symbols, at, far, 1, SHORT, sums);
        return;
    }
    if m == 2 {
        add_runs(2, run, count, symbols, at, far, 2, SHORT, sums);
        return;
    }
    if m == 3 {
        add_runs(2, run, count, symbols, at, far, 3, SHORT, sums);
        return;
    }
    if m == 4 {
        add_runs(2, run, count, symbols, at, far, 4, SHORT, sums);
        return;
    }
    add_runs(2, run, count, symbols, at, far, m, SHORT, sums);
}

// The same for two digits.
fn add_two(
    run: usize,
    count: usize,
    symbols: &[u16],
    at: usize,
    far: usize,
    m: usize,
    sums: &mut [u16],
)
    requires { InTrays gf257 2 run count symbols.now at far m sums.old × (run % 4 ≡ 0) }
    ensures { TraysAdded gf257 2 run count symbols.now at far m sums.old sums.new }
{
    if run % kernel::BLOCK != 0 {
        add_two_short(run, count, symbols, at, far, m, sums);
        return;
    }
    if m == 1 {
        add_runs(2, run, count, symbols, at, far, 1, kernel::BLOCK, sums);
        return;
    }
    if m == 2 {
        add_runs(2, run, count, symbols, at, far, 2, kernel::BLOCK, sums);
        return;
    }
    if m == 3 {
        add_runs(2, run, count, symbols, at, far, 3, kernel::BLOCK, sums);
        return;
    }
    if m == 4 {
        add_runs(2, run, count, symbols, at, far, 4, kernel::BLOCK, sums);
        return;
    }
    add_runs(2, run, count, symbols, at, far, m, kernel::BLOCK, sums);
}

// The same for three digits, where runs are no multiples of a block.
fn add_three(
    run: usize,
    count: usize,
    symbols: &[u16],
    at: usize,
    far: usize,
    m: usize,
    sums: &mut [u16],
)
    requires { InTrays gf257 3 run count symbols.now at far m sums.old }
    ensures { TraysAdded gf257 3 run count symbols.now at far m sums.old sums.new }
{
    if m == 1 {
        add_runs(3, run, count, symbols, at, far, 1, 0, sums);
        return;
    }
    if m == 2 {
        add_runs(3, run, count, symbols, at, far, 2, 0, sums);
        return;
    }
    if m == 3 {
        add_runs(3, run, count, symbols, at, far, 3, 0, sums);
        return;
    }
    if m == 4 {
        add_runs(3, run, count, symbols, at, far, 4, 0, sums);
        return;
    }
    add_runs(3, run, count, symbols, at, far, m, 0, sums);
}

// The same for four digits.
fn add_four(
    run: usize,
    count: usize,
    symbols: &[u16],
    at: usize,
    far: usize,
    m: usize,
    sums: &mut [u16],
)
    requires { InTrays gf257 4 run count symbols.now at far m sums.old × (run % 4 ≡ 0) }
    ensures { TraysAdded gf257 4 run count symbols.now at far m sums.old sums.new }
{
    if run % kernel::BLOCK != 0 {
        add_runs(4, run, count, symbols, at, far, m, SHORT, sums);
        return;
    }
    if m == 1 {
        add_runs(4, run, count, symbols, at, far, 1, kernel::BLOCK, sums);
        return;
    }
    if m == 2 {
        add_runs(4, run, count, symbols, at, far, 2, kernel::BLOCK, sums);
        return;
    }
    if m == 3 {
        add_runs(4, run, count, symbols, at, far, 3, kernel::BLOCK, sums);
        return;
    }
    if m == 4 {
        add_runs(4, run, count, symbols, at, far, 4, kernel::BLOCK, sums);
        return;
    }
    add_runs(4, run, count, symbols, at, far, m, kernel::BLOCK, sums);
}

// The same for any number of digits, where the run is a multiple of a short block.
fn add_even(
    s: usize,
    run: usize,
    count: usize,
    symbols: &[u16],
    at: usize,
    far: usize,
    m: usize,
    sums: &mut [u16],
)
    requires { InTrays gf257 s run count symbols.now at far m sums.old × (run % 4 ≡ 0) }
    ensures { TraysAdded gf257 s run count symbols.now at far m sums.old sums.new }
{
    if s == 2 {
        add_two(run, count, symbols, at, far, m, sums);
        return;
    }
    if s == 4 {
        add_four(run, count, symbols, at, far, m, sums);
        return;
    }
    add_runs(s, run, count, symbols, at, far, m, SHORT, sums);
}

// The same for any number of digits; layouts have at most four.
pub fn add_long(
    s: usize,
    run: usize,
    count: usize,
    symbols: &[u16],
    at: usize,
    far: usize,
    m: usize,
    sums: &mut [u16],
)
    requires { InTrays gf257 s run count symbols.now at far m sums.old }
    ensures { TraysAdded gf257 s run count symbols.now at far m sums.old sums.new }
{
    if s == 3 {
        add_three(run, count, symbols, at, far, m, sums);
        return;
    }
    if run % SHORT == 0 {
        add_even(s, run, count, symbols, at, far, m, sums);
        return;
    }
    add_runs(s, run, count, symbols, at, far, m, 0, sums);
}

// The same across the runs: what stands first in each of them, then what stands second, and so on.
fn add_across(
    s: usize,
    run: usize,
    count: usize,
    symbols: &[u16],
    at: usize,
    far: usize,
    m: usize,
    sums: &mut [u16],
)
    requires { InTrays gf257 s run count symbols.now at far m sums.old }
    ensures { TraysAdded gf257 s run count symbols.now at far m sums.old sums.new }
{
    for i in 0..run {
        kernel::add_spaced(
            sums,
            i,
            run,
            count,
            symbols,
            at + i,
            s * run,
            run,
            s,
            far,
            m,
        );
    }
}

// The same with the number of digits written out.
fn add_short(
    s: usize,
    run: usize,
    count: usize,
    symbols: &[u16],
    at: usize,
    far: usize,
    m: usize,
    sums: &mut [u16],
)
    requires { InTrays gf257 s run count symbols.now at far m sums.old }
    ensures { TraysAdded gf257 s run count symbols.now at far m sums.old sums.new }
{
    if s == 2 {
        add_across(2, run, count, symbols, at, far, m, sums);
        return;
    }
    if s == 3 {
        add_across(3, run, count, symbols, at, far, m, sums);
        return;
    }
    add_across(s, run, count, symbols, at, far, m, sums);
}

// Adds the sums over the groups of the symbols of m trays.
fn add_sums(l: Layout, h: u32, r: HostRuns, symbols: &[u16], at: usize, m: usize, sums: &mut [u16])
    requires { Summing gf257 l h symbols.now at m sums.old × RunsOf l h r.digits r.length r.count r.layers }
    ensures { Summed gf257 l h symbols.now at m sums.old sums.new }
{
    let s = r.digits;
    let run = r.length;
    let count = r.count;
    let far = r.layers;
    if run < SHORT {
        add_short(s, run, count, symbols, at, far, m, sums);
        return;
    }
    add_long(s, run, count, symbols, at, far, m, sums);
}

// Adds tray x's parts of the weights from 1 on, worked out from its sums; those of weight 0 are the sums themselves.
fn add_weighted(l: Layout, count: u32, x: u32, sums: &[u16], shares: &mut [u16])
    requires { Weighing l count sums.now shares.old }
    ensures { (h : ℕ) (symbols : List ℕ) → ((p : ℕ) → p < groups l → gf257.coding.elem (get_or sums.now p 0) ≡ sum_at gf257 l h symbols p) →
        Added gf257 l h x symbols shares.old shares.new count }
{
    let u = l.size;
    let total = layout::group_count(l);
    for m in 1..count {
        let weight = points::place_power(l, x % u, m);
        let to = codeword::cell(total, m, 0);
        kernel::add_multiple(shares, to, total as usize, sums, 0, weight);
    }
}

// The same from its symbols, with room for the sums.
fn add_later(
    l: Layout,
    count: u32,
    h: u32,
    x: u32,
    r: HostRuns,
    symbols: &[u16],
    at: usize,
    shares: &mut [u16],
)
    requires { Feeding gf257 l count h symbols.now at 1 shares.old × RunsOf l h r.digits r.length r.count r.layers }
    ensures { Added gf257 l h x (cut l symbols.now at) shares.old shares.new count }
{
    let mut sums = [0u16; layout::LAYERS as usize];
    add_sums(l, h, r, symbols, at, 1, &mut sums);
    add_weighted(l, count, x, &sums, shares);
}

// The same for m trays, one after another.
fn add_rest(
    l: Layout,
    count: u32,
    h: u32,
    x: u32,
    r: HostRuns,
    symbols: &[u16],
    at: usize,
    m: u32,
    shares: &mut [u16],
)
    requires { Feeding gf257 l count h symbols.now at m shares.old × RunsOf l h r.digits r.length r.count r.layers × (x + m ≤ trays l) }
    ensures { Rested gf257 l count h x symbols.now at m shares.old shares.new }
{
    let total = layout::layer_count(l);
    for k in 0..m {
        let from = at + codeword::cell(total, k, 0);
        add_later(l, count, h, x + k, r, symbols, from, shares);
    }
}

// Feeds m trays, from tray x on, whose symbols lie one after another from the place `at` on: adds their parts to what so many shares, in order of m, hold.
fn feed(
    l: Layout,
    count: u32,
    h: u32,
    x: u32,
    r: HostRuns,
    symbols: &[u16],
    at: usize,
    m: u32,
    shares: &mut [u16],
)
    requires { Feeding gf257 l count h symbols.now at m shares.old × RunsOf l h r.digits r.length r.count r.layers × (x + m ≤ trays l) }
    ensures { shares.new ≡ fed_trays gf257 l count h x symbols.now at m shares.old }
{
    add_sums(l, h, r, symbols, at, m as usize, shares);
    if count < 2 {
        return;
    }
    add_rest(l, count, h, x, r, symbols, at, m, shares);
}

// Whether all numbers of two buffers are symbols.
fn both_symbols(a: &[u16], b: &[u16]) -> bool
    ensures { result ≡ symbols_from gf257 a.now 0 (length a.now) && symbols_from gf257 b.now 0 (length b.now) }
{
    if !range::are_symbols(a, 0, a.len()) {
        return false;
    }
    range::are_symbols(b, 0, b.len())
}

// With no share asked for nothing is looked at.
fn looked(count: u32, symbols: bool) -> bool
    ensures { result ≡ cond (eqb count 0) true symbols }
{
    if count == 0 {
        return true;
    }
    symbols
}

// The first ground for refusing so many shares where so many trays of the helper's rack are lent, 0 for none, with an admissible layout; `symbols` says whether what is
// lent are symbols.
fn refusal(
    l: Layout,
    n: Counts,
    count: u32,
    lent: u32,
    host: u32,
    helper: u32,
    given: usize,
    room: usize,
    symbols: bool,
) -> u8
    requires { (admissible gf257.order l ≡ true) × CountsOf l n.digits n.layers n.groups }
    ensures { result ≡ grounds gf257.order l count lent host helper given room symbols }
{
    let b = l.racks;
    if given != lent as usize * n.layers as usize {
        return 2;
    }
    if room != count as usize * n.groups as usize {
        return 2;
    }
    if b <= host {
        return 3;
    }
    if b <= helper {
        return 3;
    }
    if !looked(count, symbols) {
        return 3;
    }
    if !layout::lost_count_fits(l, count as usize) {
        return 12;
    }
    if host == helper {
        return 6;
    }
    0
}

// The first ground for refusing tray x, 0 for none.
fn tray_refusal(l: Layout, count: u32, host: u32, x: u32, symbols: &[u16], shares: &[u16]) -> u8
    ensures { result ≡ fed_refusal gf257 l count host x symbols.now shares.now }
{
    let u = l.size;
    if !layout::admitted(ORDER as u32, l) {
        return 1;
    }
    let both = both_symbols(symbols, shares);
    let n = counts_of(l);
    refusal(
        l,
        n,
        count,
        1,
        host,
        x / u,
        symbols.len(),
        shares.len(),
        both,
    )
}

// Adds this tray's parts to what so many shares, in order of m, hold, or refuses and writes nothing, with either E. Answers the ground, 0 for done. Whoever calls
// it clears the shares first and feeds each tray of the rack once, in any order.
fn feed_tray(
    l: Layout,
    count: u32,
    host: Rack,
    tray: Tray,
    symbols: &[u16],
    shares: &mut [u16],
) -> u8
    ensures answer { result ≡ fed_refusal gf257 l count host.0 tray.0 symbols.now shares.old }
    ensures buffer { shares.new ≡ fed_buffer gf257 l count host.0 tray.0 symbols.now shares.old }
{
    let h = host.number();
    let x = tray.number();
    let ground = tray_refusal(l, count, h, x, symbols, shares);
    if ground != 0 {
        return ground;
    }
    let n = counts_of(l);
    let r = runs_of(l, n, h);
    feed(l, count, h, x, r, symbols, 0, 1, shares);
    0
}

// The same with E = 0 only.
pub fn share_add_many(
    l: Layout,
    count: u32,
    host: Rack,
    tray: Tray,
    symbols: &[u16],
    shares: &mut [u16],
) -> u8
    ensures answer { result ≡ add_many_refusal gf257 l count host.0 tray.0 symbols.now shares.old }
    ensures buffer { shares.new ≡ add_many_buffer gf257 l count host.0 tray.0 symbols.now shares.old }
{
    let e = l.errors;
    if e != 0 {
        return 1;
    }
    feed_tray(l, count, host, tray, symbols, shares)
}

// For document 01's share: one share, of weight 0, with either E.
pub fn share_add(l: Layout, host: Rack, tray: Tray, symbols: &[u16], share: &mut [u16]) -> u8
    ensures answer { result ≡ fed_refusal gf257 l 1 host.0 tray.0 symbols.now share.old }
    ensures buffer { share.new ≡ fed_buffer gf257 l 1 host.0 tray.0 symbols.now share.old }
{
    feed_tray(l, 1, host, tray, symbols, share)
}

// So many trays are fed at once where so many are left.
pub fn at_once(left: u32) -> u32
    requires { 0 < left }
    ensures { (0 < result) × (result ≤ left) × (result ≤ 4) }
{
    if left < AT_ONCE { left } else { AT_ONCE }
}

// Clears the shares and feeds the trays of the helper's rack.
fn gather(l: Layout, n: Counts, count: u32, h: u32, helper: u32, rack: &[u16], out: &mut [u16])
    requires { Gathering gf257 l count h helper rack.now out.old × CountsOf l n.digits n.layers n.groups }
    ensures { out.new ≡ shares_of gf257 l count h rack.now }
{
    let u = l.size;
    let r = runs_of(l, n, h);
    let total = r.layers;
    kernel::fill(out, 0, out.len(), 0);
    // a turn goes on by as many trays as it feeds: no plainer form was found
    let mut g = 0u32;
    while g < u {
        let m = at_once(u - g);
        feed(
            l,
            count,
            h,
            helper * u + g,
            r,
            rack,
            g as usize * total,
            m,
            out,
        );
        g += m;
    }
}

// Writes so many of the helper's shares for the host, in order of m, worked out from the helper's rack, or refuses and writes nothing, with either E. Answers the
// ground, 0 for done.
fn make_shares(l: Layout, count: u32, host: Rack, helper: Rack, rack: &[u16], out: &mut [u16]) -> u8
    ensures answer { result ≡ shares_refusal gf257 l count host.0 helper.0 rack.now (length out.old) }
    ensures buffer { out.new ≡ shares_buffer gf257 l count host.0 helper.0 rack.now out.old }
{
    let h = host.number();
    let i = helper.number();
    let symbols = range::are_symbols(rack, 0, rack.len());
    if !layout::admitted(ORDER as u32, l) {
        return 1;
    }
    let n = counts_of(l);
    let ground = refusal(l, n, count, l.size, h, i, rack.len(), out.len(), symbols);
    if ground != 0 {
        return ground;
    }
    gather(l, n, count, h, i, rack, out);
    0
}

// The same with E = 0 only.
pub fn share_many(
    l: Layout,
    count: u32,
    host: Rack,
    helper: Rack,
    rack: &[u16],
    out: &mut [u16],
) -> u8
    ensures answer { result ≡ many_refusal gf257 l count host.0 helper.0 rack.now (length out.old) }
    ensures buffer { out.new ≡ many_buffer gf257 l count host.0 helper.0 rack.now out.old }
{
    let e = l.errors;
    if e != 0 {
        return 1;
    }
    make_shares(l, count, host, helper, rack, out)
}

// For document 01's share: one share, of weight 0, with either E.
pub fn share(l: Layout, host: Rack, helper: Rack, rack: &[u16], out: &mut [u16]) -> u8
    ensures answer { result ≡ shares_refusal gf257 l 1 host.0 helper.0 rack.now (length out.old) }
    ensures buffer { out.new ≡ shares_buffer gf257 l 1 host.0 helper.0 rack.now out.old }
{
    make_shares(l, 1, host, helper, rack, out)
}
