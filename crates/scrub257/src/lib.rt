// Made by tools/twin.py from crates/scrub/src/lib.rt.
// Testing a stored codeword some layers at a time (document 02, W6). A walk is begun by a reset, and each call looks at some more layers, and at no symbol of
// another. Promises that after each call the record holds exactly how many layers below the next are bad and the least of them, and what the report says; a
// refused call leaves the record as it came. `reset` and `step` take the record by value and hand it back; the forms that change a lent one in its place stand
// above these at the boundary, crate `gesarumbo`.
#![tactic(auto)]

mod grounds;
mod look;

ghost use Rattle.std.specs.Prelude.{◌≡◌};
ghost use Rattle.symbol257.specs.Elem.{gf257};
ghost use Rattle.scrub.specs.Scrub.{scrubbed, begun};
ghost use Rattle.scrub.specs.Inner.{report_of};

use layout::Layout;
use scrub::{Report, Scrubbed, Walk};
use symbol257::plain::ORDER;

// What a record says of a walk over so many layers.
fn report_of(total: u32, walk: Walk) -> Report
    ensures { result ≡ report_of total walk }
{
    let j = walk.next;
    let n = walk.bad;
    if j < total {
        return Report::Unfinished;
    }
    if n == 0 {
        return Report::Sound;
    }
    Report::Bad
}

// Starts a new walk, whatever the old record holds.
pub fn reset(l: Layout, old: Walk) -> Scrubbed
    ensures { result ≡ begun gf257.order l old }
{
    if !layout::admitted(ORDER as u32, l) {
        return Scrubbed {
            report: Report::Refused(1),
            walk: old,
        };
    }
    Scrubbed {
        report: Report::Begun,
        walk: Walk {
            next: 0,
            bad: 0,
            first: layout::layer_count(l),
        },
    }
}

// Looks at the smaller of the budget and the layers left.
pub fn step(l: Layout, c: &[u16], walk: Walk, budget: u64) -> Scrubbed
    ensures { result ≡ scrubbed gf257 l c.now walk budget }
{
    let no = grounds::refusal(l, c, walk, budget);
    if no != 0 {
        return Scrubbed {
            report: Report::Refused(no),
            walk: walk,
        };
    }
    let total = layout::layer_count(l);
    let count = grounds::step_layers(total, walk, budget);
    let seen = look::look_on(l, total, c, walk, count);
    Scrubbed {
        report: report_of(total, seen),
        walk: seen,
    }
}
