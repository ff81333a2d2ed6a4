// The structs that cross to C, as in c/gesarumbo.h, and the numbers that they have for an answer.
ghost use Rattle.std.specs.Prelude.{◌≡◌};
ghost use Rattle.repair.specs.Repair.{report};
ghost use Rattle.correcting.specs.Correcting.{report as corrected};
ghost use Rattle.recover_correcting.specs.RecoverCorrecting.{report as recovered};
ghost use Rattle.test_kept.specs.TestKept.{report as kept};
ghost use Rattle.gesarumbo.specs.Boundary.{measure_numbers, test_numbers, margin_numbers, scrub_numbers};
ghost use Rattle.gesarumbo.specs.Inner.{run_numbers};

use codeword::Tested;
use correcting::{Corrected, CorrectedNumbers};
use layout::Measured;
use margin::LossMargin;
use recover_correcting::{Recovered, RecoveredNumbers};
use repair::{RepairNumbers, Repaired};
use scrub::{Report, Scrubbed, Walk};
use test_kept::{Kept, KeptNumbers};

#[repr(C)]
#[derive(Drop)]
pub struct MeasureNumbers {
    pub refusal: u32,
    pub layers: u32,
    pub checks: u32,
    pub traffic: u32,
}

#[repr(C)]
#[derive(Drop)]
pub struct TestNumbers {
    pub refusal: u32,
    pub verdict: u32,
    pub layer: u32,
    pub check: u32,
}

#[repr(C)]
#[derive(Drop)]
pub struct PartNumbers {
    pub refusal: u32,
    pub source: u32,
    pub offset: usize,
    pub length: usize,
}

#[repr(C)]
#[derive(Drop)]
pub struct ImageNumbers {
    pub refusal: u32,
    pub tray: u32,
    pub offset: usize,
    pub length: usize,
}

#[repr(C)]
#[derive(Drop)]
pub struct MarginNumbers {
    pub refusal: u32,
    pub margin: i32,
}

#[repr(C)]
#[derive(Drop)]
pub struct ReportNumbers {
    pub refusal: u32,
    pub report: u32,
}

#[repr(C)]
#[derive(Drop)]
pub struct ScrubNumbers {
    pub refusal: u32,
    pub report: u32,
    pub walk: Walk,
}

// The numbers of an answer of the layout call.
pub fn measure_numbers(answer: Measured) -> MeasureNumbers
    ensures { result ≡ measure_numbers answer }
{
    match answer {
        Measured::Known {
            layers,
            checks,
            traffic,
        } => MeasureNumbers {
            refusal: 0,
            layers: layers,
            checks: checks,
            traffic: traffic,
        },
        Measured::Refused(e) => MeasureNumbers {
            refusal: e as u32,
            layers: 0,
            checks: 0,
            traffic: 0,
        },
    }
}

// The numbers of an answer of a test.
pub fn test_numbers(answer: Tested) -> TestNumbers
    ensures { result ≡ test_numbers answer }
{
    match answer {
        Tested::Sound => TestNumbers {
            refusal: 0,
            verdict: 1,
            layer: 0,
            check: 0,
        },
        Tested::Bad { layer, check } => TestNumbers {
            refusal: 0,
            verdict: 2,
            layer: layer.number(),
            check: check,
        },
        Tested::Refused(e) => TestNumbers {
            refusal: e as u32,
            verdict: 0,
            layer: 0,
            check: 0,
        },
    }
}

// The numbers of an answer of a repair.
pub fn repair_numbers(answer: Repaired) -> RepairNumbers
    ensures { result ≡ report answer }
{
    match answer {
        Repaired::Done {
            groups,
            crossed,
            remaining,
        } => RepairNumbers {
            refusal: 0,
            groups: groups,
            crossed: crossed,
            remaining: remaining,
        },
        Repaired::Refused(e) => RepairNumbers {
            refusal: e as u32,
            groups: 0,
            crossed: 0,
            remaining: 0,
        },
    }
}

// The numbers of an answer of the correcting repair.
pub fn corrected_numbers(answer: Corrected) -> CorrectedNumbers
    ensures { result ≡ corrected answer }
{
    match answer {
        Corrected::Done { rack, crossed } => CorrectedNumbers {
            refusal: 0,
            rack: rack,
            crossed: crossed,
        },
        Corrected::Refused(e) => CorrectedNumbers {
            refusal: e as u32,
            rack: 0,
            crossed: 0,
        },
    }
}

// The numbers of an answer of the correcting recovery.
pub fn recovered_numbers(answer: Recovered) -> RecoveredNumbers
    ensures { result ≡ recovered answer }
{
    match answer {
        Recovered::Done { tray, checks } => RecoveredNumbers {
            refusal: 0,
            tray: tray,
            checks: checks,
        },
        Recovered::Refused(e) => RecoveredNumbers {
            refusal: e as u32,
            tray: 0,
            checks: 0,
        },
    }
}

// The numbers of an answer of a test with trays missing.
pub fn kept_numbers(answer: Kept) -> KeptNumbers
    ensures { result ≡ kept answer }
{
    match answer {
        Kept::Sound { checks } => KeptNumbers {
            refusal: 0,
            verdict: 1,
            layer: 0,
            checks: checks,
        },
        Kept::Bad { layer, checks } => KeptNumbers {
            refusal: 0,
            verdict: 2,
            layer: layer.number(),
            checks: checks,
        },
        Kept::Refused(e) => KeptNumbers {
            refusal: e as u32,
            verdict: 0,
            layer: 0,
            checks: 0,
        },
    }
}

// The numbers of an answer of the margin call.
pub fn margin_numbers(answer: LossMargin) -> MarginNumbers
    ensures { result ≡ margin_numbers answer }
{
    match answer {
        LossMargin::Known(m) => MarginNumbers {
            refusal: 0,
            margin: m,
        },
        LossMargin::Refused(e) => MarginNumbers {
            refusal: e as u32,
            margin: 0,
        },
    }
}

// The numbers of an answer of a scrub call, and the record as it is handed back.
pub fn scrub_numbers(answer: Scrubbed) -> ScrubNumbers
    ensures { result ≡ scrub_numbers answer }
{
    let walk = answer.walk;
    let report = answer.report;
    match report {
        Report::Begun => ScrubNumbers {
            refusal: 0,
            report: 0,
            walk: walk,
        },
        Report::Unfinished => ScrubNumbers {
            refusal: 0,
            report: 1,
            walk: walk,
        },
        Report::Sound => ScrubNumbers {
            refusal: 0,
            report: 2,
            walk: walk,
        },
        Report::Bad => ScrubNumbers {
            refusal: 0,
            report: 3,
            walk: walk,
        },
        Report::Refused(e) => ScrubNumbers {
            refusal: e as u32,
            report: 0,
            walk: walk,
        },
    }
}

// The numbers of a part that was read: from the spare for the lost tray, from the codeword, where it begins at `start`, for any other.
pub fn part_numbers(lost: u32, tray: u32, first: u32, start: usize, length: usize) -> PartNumbers
    ensures { result ≡ run_numbers lost tray first start length }
{
    if tray == lost {
        return PartNumbers {
            refusal: 0,
            source: 2,
            offset: first as usize,
            length: length,
        };
    }
    PartNumbers {
        refusal: 0,
        source: 1,
        offset: start,
        length: length,
    }
}
