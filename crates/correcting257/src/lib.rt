// Made by tools/twin.py from crates/correcting/src/lib.rt.
// The repair of a lost tray with E = 1, all groups at once, from shares of which one may be wrong. Crate locating finds the wrong one; the tray is then worked out by crate
// pieces from the shares of the others, or from all where none is wrong. Promises the first ground of refusal that applies and no symbol changed, or the rack whose
// share is wrong, B for none, the symbols crossed and the tray.
#![tactic(auto)]

mod left;

ghost use Rattle.std.specs.Prelude.{◌≡◌, ◌+◌, ◌*◌, ◌≤◌, length};
ghost use Rattle.symbol257.specs.Elem.{gf257};
ghost use Rattle.layout.specs.Layout.{layers, groups, tray_limit, AdmissibleWith, Cabinet};
ghost use Rattle.correcting.specs.Correcting.{seen_symbols, correcting_refusal, CorrectingAnswer};
ghost use Rattle.correcting.specs.Inner.{plain_layout, Racks, sent_limit, Rebuilding, Rebuilt, LeavingOut, RebuiltWithout};

use correcting::Corrected;
use layout::{Layout, Tray};
use symbol257::plain::ORDER;

// The layout with E = 0 that has n whole racks of data more and 2 - n helpers less.
fn plain_layout(l: Layout, n: u32) -> Layout
    requires { AdmissibleWith gf257.order 1 l × Racks n }
    ensures { result ≡ plain_layout n l }
{
    let b = l.racks;
    let u = l.size;
    let k = l.dimension;
    let d = l.helpers;
    Layout {
        racks: b,
        size: u,
        dimension: (k / u + n) * u,
        helpers: d - (2 - n),
        errors: 0,
    }
}

// The tray from shares that are all right, by that layout.
fn rebuild(
    l: Layout,
    n: u32,
    x: u32,
    helpers: &[u32],
    shares: &[u16],
    host: &[u16],
    spare: &mut [u16],
)
    requires { Rebuilding gf257.order l n x helpers.now shares.now host.now spare.old }
    ensures { Rebuilt gf257 l n x helpers.now shares.now host.now spare.old spare.new }
{
    let plain = plain_layout(l, n);
    let total = layout::group_count(plain);
    let list = [x];
    pieces257::repair_groups(plain, &list, helpers, shares, host, 0, total, spare);
}

// The tray from the shares of the helpers but k.
fn rebuild_without(
    l: Layout,
    x: u32,
    helpers: &[u32],
    shares: &[u16],
    host: &[u16],
    k: usize,
    few: &mut [u32],
    sent: &mut [u16],
    spare: &mut [u16],
)
    requires { LeavingOut gf257.order l x helpers.now shares.now host.now k spare.old × (length few.old + 1 ≡ l.helpers) × (length sent.old ≡ length few.old * groups l) }
    ensures { RebuiltWithout gf257 l x helpers.now shares.now host.now k spare.old spare.new }
{
    let total = layout::group_count(l);
    left::leave_helpers(few, helpers, k);
    left::leave_shares(sent, shares, k, few.len(), total as usize);
    rebuild(l, 1, x, few, sent, host, spare);
}

// The most symbols of the shares that are left.
const SENT: usize = 20480;

// The same with more room than is needed.
fn rebuild_in(
    l: Layout,
    x: u32,
    helpers: &[u32],
    shares: &[u16],
    host: &[u16],
    k: usize,
    few: &mut [u32],
    sent: &mut [u16],
    spare: &mut [u16],
)
    requires { LeavingOut gf257.order l x helpers.now shares.now host.now k spare.old × (tray_limit ≤ length few.old) × (sent_limit ≤ length sent.old) }
    ensures { RebuiltWithout gf257 l x helpers.now shares.now host.now k spare.old spare.new }
{
    let n = helpers.len() - 1;
    let m = n * layout::group_count(l) as usize;
    rebuild_without(
        l,
        x,
        helpers,
        shares,
        host,
        k,
        &mut few[..n],
        &mut sent[..m],
        spare,
    );
}

// The same with room of its own.
fn rebuild_others(
    l: Layout,
    x: u32,
    helpers: &[u32],
    shares: &[u16],
    host: &[u16],
    k: usize,
    spare: &mut [u16],
)
    requires { LeavingOut gf257.order l x helpers.now shares.now host.now k spare.old }
    ensures { RebuiltWithout gf257 l x helpers.now shares.now host.now k spare.old spare.new }
{
    let mut few = [0u32; layout::TRAYS as usize];
    let mut sent = [0u16; SENT];
    rebuild_in(l, x, helpers, shares, host, k, &mut few, &mut sent, spare);
}

// Whether the numbers that a call looks at are symbols.
fn seen_symbols(l: Layout, x: u32, shares: &[u16], host: &[u16]) -> bool
    requires { Cabinet l × (length host.now ≡ l.size * layers l) }
    ensures { result ≡ seen_symbols gf257 l x shares.now host.now }
{
    let u = l.size;
    let total = layout::layer_count(l) as usize;
    let place = (x % u) as usize;
    let after = (u as usize - (place + 1)) * total;
    if !range::are_symbols(shares, 0, shares.len()) {
        return false;
    }
    if !range::are_symbols(host, 0, place * total) {
        return false;
    }
    range::are_symbols(host, (place + 1) * total, after)
}

// The first ground for refusing a repair before the checks are tried, 0 for none.
fn refusal(l: Layout, x: u32, helpers: &[u32], shares: &[u16], host: &[u16], spare: usize) -> u8
    ensures { result ≡ correcting_refusal gf257 l x helpers.now shares.now host.now spare }
{
    let b = l.racks;
    let u = l.size;
    let d = l.helpers as usize;
    if !layout::admitted_with(ORDER as u32, 1, l) {
        return 1;
    }
    let total = layout::layer_count(l) as usize;
    if shares.len() != d * layout::group_count(l) as usize {
        return 2;
    }
    if host.len() != u as usize * total {
        return 2;
    }
    if spare != total {
        return 2;
    }
    if layout::tray_count(l) <= x {
        return 3;
    }
    if !lists::all_below(helpers, b) {
        return 3;
    }
    if !seen_symbols(l, x, shares, host) {
        return 3;
    }
    if !lists::strictly_rising(helpers) {
        return 4;
    }
    if helpers.len() != d {
        return 5;
    }
    if !lists::is_absent(helpers, x / u) {
        return 6;
    }
    0
}

// Repairs the lost tray in the spare from shares of which one may be wrong, or refuses and writes nothing. With E = 1 only.
pub fn repair_correcting(
    l: Layout,
    lost: Tray,
    helpers: &[u32],
    shares: &[u16],
    host: &[u16],
    spare: &mut [u16],
) -> Corrected
    ensures { CorrectingAnswer gf257 l lost.0 helpers.now shares.now host.now spare.old spare.new result }
{
    let b = l.racks;
    let u = l.size;
    let x = lost.number();
    let ground = refusal(l, x, helpers, shares, host, spare.len());
    if ground != 0 {
        return Corrected::Refused(ground);
    }
    let d = helpers.len();
    let crossed = shares.len() as u64;
    let k = locating257::locate(plain_layout(l, 2), x / u, helpers, shares);
    if d < k {
        return Corrected::Refused(14);
    }
    if k == d {
        rebuild(l, 2, x, helpers, shares, host, spare);
        return Corrected::Done {
            rack: b,
            crossed: crossed,
        };
    }
    rebuild_others(l, x, helpers, shares, host, k, spare);
    Corrected::Done {
        rack: helpers[k],
        crossed: crossed,
    }
}
