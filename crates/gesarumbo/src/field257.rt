// Made by tools/twin.py from crates/gesarumbo/src/field256.rt.
// The calls over the field modulo 257.
ghost use Rattle.std.specs.Prelude.{◌≡◌, [], ◌∷◌, length};
ghost use Rattle.symbol257.specs.Elem.{gf257};
ghost use Rattle.layout.specs.Layout.{measured};
ghost use Rattle.recover.specs.Recover.{RecoverAnswer};
ghost use Rattle.store.specs.Store.{StoreAnswer};
ghost use Rattle.batch_store.specs.Store.{BatchStoreAnswer};
ghost use Rattle.margin.specs.Margin.{margin_answer};
ghost use Rattle.share.specs.Many.{shares_refusal, shares_buffer, fed_refusal, fed_buffer, many_refusal, many_buffer, add_many_refusal, add_many_buffer};
ghost use Rattle.scrub.specs.Scrub.{scrubbed, begun};
ghost use Rattle.codeword.specs.Test.{TestAnswer};
ghost use Rattle.repair.specs.Repair.{report, RepairAnswer};
ghost use Rattle.batch_share.specs.ShareBatch.{ShareBatchAnswer};
ghost use Rattle.batch_repair.specs.RepairBatch.{RepairBatchAnswer};
ghost use Rattle.correcting.specs.Correcting.{report as corrected, CorrectingAnswer};
ghost use Rattle.cards.specs.Cards.{PrintAnswer, CardAnswer, TestAnswer as CardTest};
ghost use Rattle.recover_correcting.specs.RecoverCorrecting.{report as recovered, CorrectionAnswer};
ghost use Rattle.test_kept.specs.TestKept.{report as kept, KeptAnswer};
ghost use Rattle.image.specs.Image.{edition2};
ghost use Rattle.gather.specs.Gathering.{states_refusal, states_buffer, GatherAnswer, rack_refusal, rack_buffer};
ghost use Rattle.gesarumbo.specs.Boundary.{measure_numbers, test_numbers, margin_numbers, scrub_numbers, report_numbers, part_numbers, Shown};

use crate::numbers;
use crate::numbers::{
    MarginNumbers, MeasureNumbers, PartNumbers, ReportNumbers, ScrubNumbers, TestNumbers,
};
use correcting::CorrectedNumbers;
use gather::Gathered;
use layout::{Layout, Rack, Tray};
use recover_correcting::RecoveredNumbers;
use repair::RepairNumbers;
use scrub::Walk;
use symbol257::plain::ORDER;
use test_kept::KeptNumbers;

pub fn gesarumbo257_measure(l: Layout) -> MeasureNumbers
    ensures { result ≡ measure_numbers (measured gf257.order l) }
{
    numbers::measure_numbers(layout::measure(ORDER as u32, l))
}

pub fn gesarumbo257_test(l: Layout, codeword: &[u16]) -> TestNumbers
    ensures { Shown (TestAnswer gf257 l codeword.now) test_numbers result }
{
    numbers::test_numbers(testing::test(l, codeword))
}

pub fn gesarumbo257_share(l: Layout, host: u32, helper: u32, rack: &[u16], share: &mut [u16]) -> u32
    ensures answer { result ≡ shares_refusal gf257 l 1 host helper rack.now (length share.old) }
    ensures buffer { share.new ≡ shares_buffer gf257 l 1 host helper rack.now share.old }
{
    share257::share(l, Rack::of(host), Rack::of(helper), rack, share) as u32
}

pub fn gesarumbo257_share_add(
    l: Layout,
    host: u32,
    tray: u32,
    symbols: &[u16],
    share: &mut [u16],
) -> u32
    ensures answer { result ≡ fed_refusal gf257 l 1 host tray symbols.now share.old }
    ensures buffer { share.new ≡ fed_buffer gf257 l 1 host tray symbols.now share.old }
{
    share257::share_add(l, Rack::of(host), Tray::of(tray), symbols, share) as u32
}

pub fn gesarumbo257_share_many(
    l: Layout,
    count: u32,
    host: u32,
    helper: u32,
    rack: &[u16],
    share: &mut [u16],
) -> u32
    ensures answer { result ≡ many_refusal gf257 l count host helper rack.now (length share.old) }
    ensures buffer { share.new ≡ many_buffer gf257 l count host helper rack.now share.old }
{
    share257::share_many(l, count, Rack::of(host), Rack::of(helper), rack, share) as u32
}

pub fn gesarumbo257_share_add_many(
    l: Layout,
    count: u32,
    host: u32,
    tray: u32,
    symbols: &[u16],
    share: &mut [u16],
) -> u32
    ensures answer { result ≡ add_many_refusal gf257 l count host tray symbols.now share.old }
    ensures buffer { share.new ≡ add_many_buffer gf257 l count host tray symbols.now share.old }
{
    share257::share_add_many(l, count, Rack::of(host), Tray::of(tray), symbols, share) as u32
}

pub fn gesarumbo257_repair(
    l: Layout,
    lost: u32,
    helpers: &[u32],
    shares: &[u16],
    host: &[u16],
    spare: &mut [u16],
    first: u64,
    budget: u64,
) -> RepairNumbers
    ensures { Shown (RepairAnswer gf257 l (lost ∷ []) helpers.now shares.now host.now first budget spare.old
        spare.new) report result }
{
    numbers::repair_numbers(repair257::repair(
        l,
        Tray::of(lost),
        helpers,
        shares,
        host,
        spare,
        first,
        budget,
    ))
}

pub fn gesarumbo257_repair_many(
    l: Layout,
    lost: &[u32],
    helpers: &[u32],
    shares: &[u16],
    host: &[u16],
    spare: &mut [u16],
    first: u64,
    budget: u64,
) -> RepairNumbers
    ensures { Shown (RepairAnswer gf257 l lost.now helpers.now shares.now host.now first budget
        spare.old spare.new) report result }
{
    numbers::repair_numbers(repair257::repair_named(
        lost, helpers, spare, l, shares, host, first, budget,
    ))
}

pub fn gesarumbo257_share_batch(
    l: Layout,
    many: usize,
    host: u32,
    helper: u32,
    rack: &[u16],
    share: &mut [u16],
) -> u32
    ensures { ShareBatchAnswer gf257 l many host helper rack.now share.old share.new result }
{
    batch_share257::share_batch(l, many, Rack::of(host), Rack::of(helper), rack, share) as u32
}

pub fn gesarumbo257_repair_batch(
    l: Layout,
    many: usize,
    lost: u32,
    helpers: &[u32],
    shares: &[u16],
    host: &[u16],
    spare: &mut [u16],
    first: u64,
    budget: u64,
) -> RepairNumbers
    ensures { Shown (RepairBatchAnswer gf257 l many lost helpers.now shares.now host.now first budget spare.old
        spare.new) report result }
{
    numbers::repair_numbers(batch_repair257::repair_batch(
        l,
        many,
        Tray::of(lost),
        helpers,
        shares,
        host,
        spare,
        first,
        budget,
    ))
}

pub fn gesarumbo257_repair_correcting(
    l: Layout,
    lost: u32,
    helpers: &[u32],
    shares: &[u16],
    host: &[u16],
    spare: &mut [u16],
) -> CorrectedNumbers
    ensures { Shown (CorrectingAnswer gf257 l lost helpers.now shares.now host.now spare.old spare.new) corrected result }
{
    numbers::corrected_numbers(correcting257::repair_correcting(
        l,
        Tray::of(lost),
        helpers,
        shares,
        host,
        spare,
    ))
}

pub fn gesarumbo257_card(l: Layout, lost: u32, helpers: &[u32], group: u64, card: &mut [u16]) -> u32
    ensures { PrintAnswer gf257 l lost helpers.now group card.old card.new result }
{
    cards257::card_print(l, Tray::of(lost), helpers, card, group) as u32
}

pub fn gesarumbo257_card_test(
    l: Layout,
    lost: u32,
    helpers: &[u32],
    card: &[u16],
    group: u64,
) -> u32
    ensures { CardTest gf257 l lost helpers.now card.now group result }
{
    cards257::card_test(l, Tray::of(lost), helpers, card, group) as u32
}

pub fn gesarumbo257_card_repair(
    l: Layout,
    lost: u32,
    helpers: &[u32],
    card: &[u16],
    shares: &[u16],
    host: &[u16],
    spare: &mut [u16],
    group: u64,
) -> RepairNumbers
    ensures { Shown (CardAnswer gf257 l lost helpers.now card.now shares.now host.now group spare.old
        spare.new) report result }
{
    numbers::repair_numbers(cards257::card_repair(
        l,
        Tray::of(lost),
        helpers,
        card,
        shares,
        host,
        spare,
        group,
    ))
}

pub fn gesarumbo257_read_part<'a>(
    l: Layout,
    codeword: &'a [u16],
    spare: &'a [u16],
    lost: u32,
    done: u64,
    tray: u32,
    first: u32,
    end: u32,
) -> PartNumbers
    ensures { result ≡ part_numbers gf257.order l (length codeword.now) (length spare.now) lost done tray first end }
{
    let mut refusal = 0u32;
    let part = reading257::read_part(
        l,
        codeword,
        spare,
        Tray::of(lost),
        done,
        Tray::of(tray),
        first,
        end,
        &mut refusal,
    );
    let length = part.len();
    if refusal != 0 {
        return PartNumbers {
            refusal: refusal,
            source: 0,
            offset: 0,
            length: 0,
        };
    }
    let start = tray as usize * layout::layer_count(l) as usize + first as usize;
    numbers::part_numbers(lost, tray, first, start, length)
}

pub fn gesarumbo257_store(l: Layout, words: &[u16], codeword: &mut [u16]) -> u32
    ensures { StoreAnswer gf257 l words.now codeword.old codeword.new result }
{
    store257::store(l, words, codeword) as u32
}

pub fn gesarumbo257_store_batch(l: Layout, many: usize, words: &[u16], codewords: &mut [u16]) -> u32
    ensures { BatchStoreAnswer gf257 l many words.now codewords.old codewords.new result }
{
    batch_store257::store_batch(l, many, words, codewords) as u32
}

pub fn gesarumbo257_recover(l: Layout, codeword: &mut [u16], erased: &[u32]) -> u32
    ensures { RecoverAnswer gf257 l erased.now codeword.old codeword.new result }
{
    recover257::recover(l, codeword, erased) as u32
}

pub fn gesarumbo257_recover_correcting(
    l: Layout,
    codeword: &mut [u16],
    erased: &[u32],
) -> RecoveredNumbers
    ensures { Shown (CorrectionAnswer gf257 l erased.now codeword.old codeword.new) recovered result }
{
    numbers::recovered_numbers(recover_correcting257::recover_correcting(l, codeword, erased))
}

pub fn gesarumbo257_test_kept(l: Layout, codeword: &[u16], erased: &[u32]) -> KeptNumbers
    ensures { Shown (KeptAnswer gf257 l erased.now codeword.now) kept result }
{
    numbers::kept_numbers(test_kept257::test_kept(l, codeword, erased))
}

pub fn gesarumbo257_states(l: Layout, volume: u32, images: &[u8], states: &mut [u8]) -> u32
    ensures answer { result ≡ states_refusal edition2 l (length images.now) (length states.old) }
    ensures buffer { states.new ≡ states_buffer edition2 l volume images.now states.old }
{
    gather257::states::states(l, volume, images, states) as u32
}

pub fn gesarumbo257_gather(
    l: Layout,
    volume: u32,
    images: &[u8],
    codeword: &mut [u16],
    missing: &mut [u32],
) -> Gathered
    ensures { GatherAnswer edition2 l volume images.now codeword.old missing.old codeword.new missing.new result }
{
    gather257::gather(l, volume, images, codeword, missing)
}

pub fn gesarumbo257_gather_rack(
    l: Layout,
    volume: u32,
    rack: u32,
    lost: &[u32],
    images: &[u8],
    out: &mut [u16],
) -> u32
    ensures answer { result ≡ rack_refusal edition2 l volume rack lost.now images.now (length out.old) }
    ensures buffer { out.new ≡ rack_buffer edition2 l volume rack lost.now images.now out.old }
{
    gather257::rack::gather_rack(l, volume, Rack::of(rack), lost, images, out) as u32
}

pub fn gesarumbo257_margin(l: Layout, states: &[u8]) -> MarginNumbers
    ensures { result ≡ margin_numbers (margin_answer gf257.order l states.now) }
{
    numbers::margin_numbers(margin::margin(ORDER as u32, l, states))
}

pub fn gesarumbo257_scrub_reset(l: Layout, walk: Walk) -> ScrubNumbers
    ensures { result ≡ scrub_numbers (begun gf257.order l walk) }
{
    numbers::scrub_numbers(scrub257::reset(l, walk))
}

pub fn gesarumbo257_scrub(l: Layout, codeword: &[u16], walk: Walk, budget: u64) -> ScrubNumbers
    ensures { result ≡ scrub_numbers (scrubbed gf257 l codeword.now walk budget) }
{
    numbers::scrub_numbers(scrub257::step(l, codeword, walk, budget))
}

// The reset with the record lent, and changed in its place.
pub fn gesarumbo257_scrub_reset_in_place(l: Layout, walk: &mut Walk) -> ReportNumbers
    ensures { (result ≡ report_numbers (begun gf257.order l walk.old).report) × (walk.new ≡ (begun gf257.order l walk.old).walk) }
{
    let begun = gesarumbo257_scrub_reset(l, *walk);
    *walk = begun.walk;
    ReportNumbers {
        refusal: begun.refusal,
        report: begun.report,
    }
}

// The step with the record lent, and changed in its place.
pub fn gesarumbo257_scrub_in_place(
    l: Layout,
    codeword: &[u16],
    walk: &mut Walk,
    budget: u64,
) -> ReportNumbers
    ensures { (result ≡ report_numbers (scrubbed gf257 l codeword.now walk.old budget).report)
        × (walk.new ≡ (scrubbed gf257 l codeword.now walk.old budget).walk) }
{
    let s = gesarumbo257_scrub(l, codeword, *walk, budget);
    *walk = s.walk;
    ReportNumbers {
        refusal: s.refusal,
        report: s.report,
    }
}
