// Made by tools/twin.py from crates/repair/src/lib.rt.
// The repair of a lost tray, or of several of one rack, from shares, whole or in pieces. Promises, for every layout, list, buffer, first group and budget,
// the first ground of refusal that applies and no symbol changed, or the groups done, the symbols crossed and those still to come, the done groups' layers of
// the spare as the rule of repair fixes them and every other symbol as it was. Over whole lists of such calls it proves the cutting claim (specs/Calls.antt).
#![tactic(auto)]

ghost use Rattle.std.specs.Prelude.{◌≡◌, [], ◌∷◌, ◌*◌, length};
ghost use Rattle.symbol257.specs.Elem.{gf257};
ghost use Rattle.layout.specs.Layout.{layers, traffic, Cabinet};
ghost use Rattle.repair.specs.Repair.{repair_refusal, RepairAnswer};
ghost use Rattle.repair.specs.Inner.{number_refusal};

use layout::{Layout, Tray};
use repair::Repaired;
use symbol257::plain::ORDER;
use typed_lists::{Racks, Trays};

// The first ground that the numbers in the lists and the symbols give: 3 or 4, 0 for none.
fn number_refusal(
    l: Layout,
    lost: &[u32],
    helpers: &[u32],
    shares: &[u16],
    host: &[u16],
    first: u64,
    budget: u64,
) -> u8
    requires { Cabinet l × (length shares.now ≡ length lost.now * traffic l) × (length host.now ≡ l.size * layers l) }
    ensures { result ≡ number_refusal gf257 l lost.now helpers.now shares.now host.now first budget }
{
    let b = l.racks;
    if !lists::all_below(lost, layout::tray_count(l)) {
        return 3;
    }
    if !grounds::one_rack(l, lost) {
        return 3;
    }
    if !lists::all_below(helpers, b) {
        return 3;
    }
    if !seen::piece_symbols(l, lost, shares, host, first, budget) {
        return 3;
    }
    if !lists::strictly_rising(lost) {
        return 4;
    }
    if !lists::strictly_rising(helpers) {
        return 4;
    }
    0
}

// The first ground for refusing a repair, 0 for none.
fn refusal(
    l: Layout,
    lost: &[u32],
    helpers: &[u32],
    shares: &[u16],
    host: &[u16],
    spare: usize,
    first: u64,
    budget: u64,
) -> u8
    ensures { result ≡ repair_refusal gf257 l lost.now helpers.now shares.now host.now spare first budget }
{
    let u = l.size as usize;
    let d = l.helpers as usize;
    if !layout::admitted_with(ORDER as u32, 0, l) {
        return 1;
    }
    let total = layout::layer_count(l) as usize;
    if !grounds::is_times(
        shares.len(),
        lost.len(),
        d * layout::group_count(l) as usize,
    ) {
        return 2;
    }
    if host.len() != u * total {
        return 2;
    }
    if !grounds::is_times(spare, lost.len(), total) {
        return 2;
    }
    let ground = number_refusal(l, lost, helpers, shares, host, first, budget);
    if ground != 0 {
        return ground;
    }
    grounds::count_refusal(l, lost, helpers, first)
}

// Repairs a piece of the lost trays, all of one rack, in the spare, or refuses and writes nothing.
fn repair_lists(
    lost: &[u32],
    helpers: &[u32],
    spare: &mut [u16],
    l: Layout,
    shares: &[u16],
    host: &[u16],
    first: u64,
    budget: u64,
) -> Repaired
    ensures { RepairAnswer gf257 l lost.now helpers.now shares.now host.now first budget spare.old spare.new result }
{
    let d = l.helpers as u64;
    let e = lost.len() as u64;
    let ground = refusal(l, lost, helpers, shares, host, spare.len(), first, budget);
    if ground != 0 {
        return Repaired::Refused(ground);
    }
    let left = layout::group_count(l) as u64 - first;
    let count = lists::smaller(budget, left);
    pieces257::repair_groups(
        l,
        lost,
        helpers,
        shares,
        host,
        first as u32,
        count as u32,
        spare,
    );
    Repaired::Done {
        groups: count,
        crossed: e * (d * count),
        remaining: e * (d * (left - count)),
    }
}

// Repairs a piece of the lost trays with the helper racks: a list of trays and a list of racks, which cannot be exchanged. The lists and the spare come first.
pub fn repair_many<'t, 'r, 'c, 's, 'h>(
    lost: Trays<'t>,
    helpers: Racks<'r>,
    spare: &'c mut [u16],
    l: Layout,
    shares: &'s [u16],
    host: &'h [u16],
    first: u64,
    budget: u64,
) -> Repaired
    ensures { RepairAnswer gf257 l lost.entry.0.now helpers.entry.0.now shares.now host.now first budget spare.old spare.new result }
{
    repair_lists(lost.0, helpers.0, spare, l, shares, host, first, budget)
}

// The same of two plain lists: the first is named one of trays, the second one of racks.
pub fn repair_named(
    lost: &[u32],
    helpers: &[u32],
    spare: &mut [u16],
    l: Layout,
    shares: &[u16],
    host: &[u16],
    first: u64,
    budget: u64,
) -> Repaired
    ensures { RepairAnswer gf257 l lost.now helpers.now shares.now host.now first budget spare.old spare.new result }
{
    repair_many(
        Trays(lost),
        Racks(helpers),
        spare,
        l,
        shares,
        host,
        first,
        budget,
    )
}

// Repairs a piece of the lost tray in the spare, or refuses and writes nothing: the repair of a list of one.
pub fn repair(
    l: Layout,
    lost: Tray,
    helpers: &[u32],
    shares: &[u16],
    host: &[u16],
    spare: &mut [u16],
    first: u64,
    budget: u64,
) -> Repaired
    ensures { RepairAnswer gf257 l (lost.0 ∷ []) helpers.now shares.now host.now first budget spare.old spare.new result }
{
    let list = [lost.number()];
    repair_named(&list, helpers, spare, l, shares, host, first, budget)
}
