// Testing a codeword with trays missing: what a recovery would find, with nothing written and no missing tray looked at. Promises that
// the answer is sound exactly when in every
// layer the missing symbols can be chosen so that all checks hold, and else the first layer in which they cannot; and how many checks
// were tested, which is none where as many
// trays are missing as there are checks. The grounds for refusing are those of a recovery.
#![tactic(auto)]

mod first;

ghost use Rattle.symbol.specs.Elem.{gf256};
ghost use Rattle.test_kept.specs.TestKept.{KeptAnswer};

use layout::{Layer, Layout};

// What the call answers: with each verdict the checks of a layer that no missing symbol was solved with.
#[derive(Drop)]
pub enum Kept {
    Sound { checks: u32 },
    Bad { layer: Layer, checks: u32 },
    Refused(u8),
}

// The numbers of such an answer, as they cross to C; those that it does not have are 0.
#[repr(C)]
#[derive(Drop)]
pub struct KeptNumbers {
    pub refusal: u32,
    pub verdict: u32,
    pub layer: u32,
    pub checks: u32,
}

// Tests the trays that are not erased.
pub fn test_kept(l: Layout, c: &[u8], erased: &[u32]) -> Kept
    ensures { KeptAnswer gf256 l erased.now c.now result }
{
    let ground = recover::refusal(l, erased, c);
    if ground != 0 {
        return Kept::Refused(ground);
    }
    let total = layout::layer_count(l);
    let left = layout::check_count(l) - erased.len() as u32;
    if restore::all_fit(l, total, c, erased) {
        return Kept::Sound { checks: left };
    }
    Kept::Bad {
        layer: Layer::of(first::bad_layer(l, total, c, erased) as u32),
        checks: left,
    }
}
