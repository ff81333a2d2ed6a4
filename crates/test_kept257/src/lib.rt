// Made by tools/twin.py from crates/test_kept/src/lib.rt.
// Testing a codeword with trays missing: what a recovery would find, with nothing written and no missing tray looked at. Promises that
// the answer is sound exactly when in every
// layer the missing symbols can be chosen so that all checks hold, and else the first layer in which they cannot; and how many checks
// were tested, which is none where as many
// trays are missing as there are checks. The grounds for refusing are those of a recovery.
#![tactic(auto)]

mod first;

ghost use Rattle.symbol257.specs.Elem.{gf257};
ghost use Rattle.test_kept.specs.TestKept.{KeptAnswer};

use layout::{Layer, Layout};
use test_kept::Kept;

// Tests the trays that are not erased.
pub fn test_kept(l: Layout, c: &[u16], erased: &[u32]) -> Kept
    ensures { KeptAnswer gf257 l erased.now c.now result }
{
    let ground = recover257::refusal(l, erased, c);
    if ground != 0 {
        return Kept::Refused(ground);
    }
    let total = layout::layer_count(l);
    let left = layout::check_count(l) - erased.len() as u32;
    if restore257::all_fit(l, total, c, erased) {
        return Kept::Sound { checks: left };
    }
    Kept::Bad {
        layer: Layer::of(first::bad_layer(l, total, c, erased) as u32),
        checks: left,
    }
}
