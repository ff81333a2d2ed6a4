// The repair of a lost tray of many codewords of one layout at once, interleaved (crate batch_parts), whole or in pieces. What a helper's symbols count for in the host's rack
// sums is the same in every codeword, so a group's multipliers (crate multipliers) are worked out once for all. Promises, for every layout, number of codewords, list, buffer,
// first group and budget, the first ground of refusal that applies and no symbol changed; or of each codeword what the repair call answers and writes (crate repair). Over
// lists of such calls it proves the cutting claim for each codeword (specs/BatchCalls.antt).
#![tactic(auto)]

ghost use Rattle.std.specs.Prelude.{◌≡◌, [], ◌∷◌, ℕ, ◌+◌, ◌*◌, ◌<◌, ◌≤◌, length};
ghost use Rattle.symbol.specs.Elem.{gf256};
ghost use Rattle.kernel.specs.Inner.{Run};
ghost use Rattle.layout.specs.Layout.{digits, Cabinet};
ghost use Rattle.batch_repair.specs.RepairBatch.{right_lengths, batch_symbols, repair_batch_refusal, RepairBatchAnswer};
ghost use Rattle.batch_repair.specs.Inner.{Looking, Wide, host_seen, Told, lessened, Adding, card_row, Lessening, less_rack, Layering, LayerRepaired, GroupRepaired, BatchPiece};

use layout::{Layout, Tray};
use repair::Repaired;
use symbol::plain::{ORDER, difference};

// Whether the sound trays' numbers of these groups are symbols in all codewords.
fn hosts_symbols(l: Layout, many: usize, x: u32, host: &[u8], first: usize, count: usize) -> bool
    requires { Looking l many x host.now first count }
    ensures { result ≡ host_seen gf256 l many x host.now first count }
{
    let u = l.size;
    let h = x / u;
    let lost = [x];
    let total = layout::layer_count(l) as usize * many;
    let s = layout::digit_count(l) as usize;
    let unit = blocks::block_width(l, h) * many;
    for g in 0..u {
        if !seen::tray_symbols(
            &lost,
            h * u + g,
            host,
            g as usize * total,
            s,
            unit,
            first * many,
            count * many,
        ) {
            return false;
        }
    }
    true
}

// Whether what a call looks at are symbols in all codewords.
fn batch_symbols(
    l: Layout,
    many: usize,
    x: u32,
    shares: &[u8],
    host: &[u8],
    first: u64,
    budget: u64,
) -> bool
    requires { Wide l many x shares.now host.now }
    ensures { result ≡ batch_symbols gf256 l many x shares.now host.now first budget }
{
    let d = l.helpers as usize;
    if many == 0 {
        return true;
    }
    let total = layout::group_count(l);
    if total as u64 <= first {
        return true;
    }
    let count = lists::smaller(budget, total as u64 - first);
    if !range::rows_are_symbols(
        shares,
        d,
        total as usize * many,
        first as usize * many,
        count as usize * many,
    ) {
        return false;
    }
    hosts_symbols(l, many, x, host, first as usize, count as usize)
}

// Whether the buffers have their lengths.
fn right_lengths(l: Layout, many: usize, shares: usize, host: usize, spare: usize) -> bool
    requires { Cabinet l }
    ensures { result ≡ right_lengths l many shares host spare }
{
    let u = l.size as usize;
    let d = l.helpers as usize;
    let total = layout::layer_count(l) as usize;
    let groups = layout::group_count(l) as usize;
    if !batch_parts::is_times(shares, d * groups, many) {
        return false;
    }
    if !batch_parts::is_times(host, u * total, many) {
        return false;
    }
    batch_parts::is_times(spare, total, many)
}

// The first ground for refusing a repair, 0 for none.
fn refusal(
    l: Layout,
    many: usize,
    x: u32,
    helpers: &[u32],
    shares: &[u8],
    host: &[u8],
    spare: usize,
    first: u64,
    budget: u64,
) -> u8
    ensures { result ≡ repair_batch_refusal gf256 l many x helpers.now shares.now host.now spare first budget }
{
    let b = l.racks;
    if !layout::admitted_with(ORDER as u32, 0, l) {
        return 1;
    }
    if !right_lengths(l, many, shares.len(), host.len(), spare) {
        return 2;
    }
    if layout::tray_count(l) <= x {
        return 3;
    }
    if !lists::all_below(helpers, b) {
        return 3;
    }
    if !batch_symbols(l, many, x, shares, host, first, budget) {
        return 3;
    }
    let ground = card::helpers_ground(l, x, helpers);
    if ground != 0 {
        return ground;
    }
    if (layout::group_count(l) as u64) < first {
        return 7;
    }
    0
}

// A run less another buffer's.
fn subtract(out: &mut [u8], to: usize, len: usize, src: &[u8], from: usize)
    requires { (to + len ≤ length out.old) × (from + len ≤ length src.now) }
    ensures { Run (lessened gf256 out.old to src.now from) out.old out.new to len }
{
    for j in 0..len {
        out[to + j] = difference(out[to + j], src[from + j]);
    }
}

// The same for the tray at place g, unless it is the lost one.
fn subtract_sound(out: &mut [u8], to: usize, len: usize, src: &[u8], from: usize, g: u32, lost: u32)
    requires { (to + len ≤ length out.old) × (from + len ≤ length src.now) }
    ensures { (g ≡ lost → out.new ≡ out.old)
        × (¬ (g ≡ lost) → Run (lessened gf256 out.old to src.now from) out.old out.new to len) }
{
    if g == lost {
        return;
    }
    subtract(out, to, len, src, from);
}

// A run less those of all trays of a rack but the lost one, so many places apart.
fn subtract_rack(
    out: &mut [u8],
    to: usize,
    len: usize,
    host: &[u8],
    from: usize,
    far: usize,
    u: u32,
    lost: u32,
)
    requires { Lessening gf256 out.old to len host.now from far u }
    ensures { Run (less_rack gf256 out.old to host.now from far lost u) out.old out.new to len }
{
    for g in 0..u {
        subtract_sound(out, to, len, host, from + g as usize * far, g, lost);
    }
}

// The sum of the shares' runs, so many places apart, each times its multiplier, in a run of zeros.
fn add_rows(
    out: &mut [u8],
    to: usize,
    len: usize,
    card: &[u8],
    at: usize,
    d: usize,
    shares: &[u8],
    from: usize,
    far: usize,
)
    requires { Adding out.old to len card.now at d shares.now from far }
    ensures { Run (card_row gf256 card.now at shares.now from far d) out.old out.new to len }
{
    for k in 0..d {
        let v = kernel::at(card, at + k);
        kernel::add_multiple(out, to, len, shares, from + k * far, v);
    }
}

// The lost symbols of all codewords in the layer of a group whose host digit is b: the host's rack sums by the multipliers, less the rack's other symbols.
fn repair_layer(
    l: Layout,
    many: usize,
    x: u32,
    card: &[u8],
    shares: &[u8],
    host: &[u8],
    p: u32,
    b: u32,
    spare: &mut [u8],
)
    requires { Layering l many x card.now shares.now host.now p spare.old × (b < digits l) }
    ensures { LayerRepaired gf256 l many x card.now shares.now host.now p b spare.old spare.new }
{
    let u = l.size;
    let d = l.helpers as usize;
    let groups = layout::group_count(l) as usize * many;
    let total = layout::layer_count(l) as usize * many;
    let to = layout::layer_of(l, x / u, p, b) as usize * many;
    kernel::fill(spare, to, many, 0);
    add_rows(
        spare,
        to,
        many,
        card,
        b as usize * d,
        d,
        shares,
        p as usize * many,
        groups,
    );
    subtract_rack(spare, to, many, host, to, total, u, x % u);
}

// All layers of a group.
fn repair_layers(
    l: Layout,
    many: usize,
    x: u32,
    card: &[u8],
    shares: &[u8],
    host: &[u8],
    p: u32,
    spare: &mut [u8],
)
    requires { Layering l many x card.now shares.now host.now p spare.old }
    ensures { GroupRepaired gf256 l many x card.now shares.now host.now p (digits l) spare.old spare.new }
{
    let s = layout::digit_count(l);
    for b in 0..s {
        repair_layer(l, many, x, card, shares, host, p, b, spare);
    }
}

// A group, with its multipliers.
fn repair_group(
    l: Layout,
    many: usize,
    x: u32,
    helpers: &[u32],
    shares: &[u8],
    host: &[u8],
    p: u32,
    spare: &mut [u8],
)
    requires { Told gf256 l many x helpers.now shares.now host.now p 1 spare.old }
    ensures { BatchPiece gf256 l many x helpers.now shares.now host.now p 1 spare.old spare.new }
{
    let u = l.size;
    let mut card = [0u8; blocks::ROOM];
    multipliers::right_multipliers(&mut card, l, x / u, p, helpers);
    repair_layers(l, many, x, &card, shares, host, p, spare);
}

// Group after group.
fn repair_groups(
    l: Layout,
    many: usize,
    x: u32,
    helpers: &[u32],
    shares: &[u8],
    host: &[u8],
    first: u32,
    count: u32,
    spare: &mut [u8],
)
    requires { Told gf256 l many x helpers.now shares.now host.now first count spare.old }
    ensures { BatchPiece gf256 l many x helpers.now shares.now host.now first count spare.old spare.new }
{
    for k in 0..count {
        repair_group(l, many, x, helpers, shares, host, first + k, spare);
    }
}

// Repairs a piece of the lost tray of so many codewords in the spare, or refuses and writes nothing.
pub fn repair_batch(
    l: Layout,
    many: usize,
    lost: Tray,
    helpers: &[u32],
    shares: &[u8],
    host: &[u8],
    spare: &mut [u8],
    first: u64,
    budget: u64,
) -> Repaired
    ensures { RepairBatchAnswer gf256 l many lost.0 helpers.now shares.now host.now first budget spare.old spare.new result }
{
    let d = l.helpers as u64;
    let x = lost.number();
    let ground = refusal(
        l,
        many,
        x,
        helpers,
        shares,
        host,
        spare.len(),
        first,
        budget,
    );
    if ground != 0 {
        return Repaired::Refused(ground);
    }
    let left = layout::group_count(l) as u64 - first;
    let count = lists::smaller(budget, left);
    repair_groups(
        l,
        many,
        x,
        helpers,
        shares,
        host,
        first as u32,
        count as u32,
        spare,
    );
    Repaired::Done {
        groups: count,
        crossed: many as u64 * (d * count),
        remaining: many as u64 * (d * (left - count)),
    }
}
