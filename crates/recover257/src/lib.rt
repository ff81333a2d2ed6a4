// Made by tools/twin.py from crates/recover/src/lib.rt.
// Recovering erased trays. Promises that the buffer becomes the only codeword that agrees with it outside the trays listed, and the answer 8 exactly when
// there is none. It decides before it writes, writes erased trays only and never looks at their old symbols (proofs/Settled.antt); a refused call changes
// no symbol. With fewer trays erased than there are checks, every check that was not needed to solve is tested.
#![tactic(auto)]

ghost use Rattle.std.specs.Prelude.{◌≡◌, ◌+◌, ◌*◌, ◌≤◌, length};
ghost use Rattle.symbol257.specs.Elem.{gf257};
ghost use Rattle.layout.specs.Layout.{trays, layers, Cabinet};
ghost use Rattle.recover.specs.Recover.{kept_symbols, recover_refusal, RecoverAnswer};
ghost use Rattle.recover.specs.Inner.{kept_tray};

use layout::Layout;
use symbol257::plain::ORDER;

// Whether a tray is listed, or all its numbers are symbols.
fn kept_tray(es: &[u32], c: &[u16], total: usize, x: u32) -> bool
    requires { x * total + total ≤ length c.now }
    ensures { result ≡ kept_tray gf257 es.now c.now total x }
{
    if !lists::is_absent(es, x) {
        return true;
    }
    range::are_symbols(c, x as usize * total, total)
}

// Whether all numbers of the trays that are not listed are symbols.
fn kept_symbols(l: Layout, es: &[u32], c: &[u16]) -> bool
    requires { Cabinet l × (length c.now ≡ trays l * layers l) }
    ensures { result ≡ kept_symbols gf257 l es.now c.now }
{
    let n = layout::tray_count(l);
    let total = layout::layer_count(l) as usize;
    for x in 0..n {
        if !kept_tray(es, c, total, x) {
            return false;
        }
    }
    true
}

// The first ground for refusing that does not look at the checks of the survivors, 0 for none.
pub fn refusal(l: Layout, es: &[u32], c: &[u16]) -> u8
    ensures { result ≡ recover_refusal gf257 l es.now c.now }
{
    if !layout::admitted(ORDER as u32, l) {
        return 1;
    }
    let total = layout::layer_count(l) as usize;
    let n = layout::tray_count(l);
    if c.len() != n as usize * total {
        return 2;
    }
    if !lists::all_below(es, n) {
        return 3;
    }
    if !kept_symbols(l, es, c) {
        return 3;
    }
    if !lists::strictly_rising(es) {
        return 4;
    }
    if (layout::check_count(l) as usize) < es.len() {
        return 5;
    }
    0
}

// Recovers the trays erased, or refuses and writes nothing.
pub fn recover(l: Layout, c: &mut [u16], erased: &[u32]) -> u8
    ensures { RecoverAnswer gf257 l erased.now c.old c.new result }
{
    let ground = refusal(l, erased, c);
    if ground != 0 {
        return ground;
    }
    let total = layout::layer_count(l);
    if !restore257::all_fit(l, total, c, erased) {
        return 8;
    }
    restore257::restore(l, total, c, erased);
    0
}
