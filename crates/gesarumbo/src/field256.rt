// The calls over the field of 256.
ghost use Rattle.std.specs.Prelude.{◌≡◌, [], ◌∷◌, length};
ghost use Rattle.symbol.specs.Elem.{gf256};
ghost use Rattle.layout.specs.Layout.{measured};
ghost use Rattle.recover.specs.Recover.{RecoverAnswer};
ghost use Rattle.store.specs.Store.{StoreAnswer};
ghost use Rattle.batch_store.specs.Store.{BatchStoreAnswer};
ghost use Rattle.margin.specs.Margin.{margin_answer};
ghost use Rattle.share.specs.Many.{shares_refusal, shares_buffer, fed_refusal, fed_buffer, many_refusal, many_buffer, add_many_refusal, add_many_buffer};
ghost use Rattle.scrub.specs.Scrub.{scrubbed, begun};
ghost use Rattle.codeword.specs.Test.{TestAnswer};
ghost use Rattle.repair.specs.Repair.{report, RepairAnswer};
ghost use Rattle.batch_share.specs.ShareBatch.{ShareBatchAnswer};
ghost use Rattle.batch_repair.specs.RepairBatch.{RepairBatchAnswer};
ghost use Rattle.correcting.specs.Correcting.{report as corrected, CorrectingAnswer};
ghost use Rattle.cards.specs.Cards.{PrintAnswer, CardAnswer, TestAnswer as CardTest};
ghost use Rattle.recover_correcting.specs.RecoverCorrecting.{report as recovered, CorrectionAnswer};
ghost use Rattle.test_kept.specs.TestKept.{report as kept, KeptAnswer};
ghost use Rattle.image.specs.Image.{edition1};
ghost use Rattle.gather.specs.Gathering.{states_refusal, states_buffer, GatherAnswer, rack_refusal, rack_buffer};
ghost use Rattle.gesarumbo.specs.Boundary.{measure_numbers, test_numbers, margin_numbers, scrub_numbers, report_numbers, part_numbers, Shown};

use crate::numbers;
use crate::numbers::{
    MarginNumbers, MeasureNumbers, PartNumbers, ReportNumbers, ScrubNumbers, TestNumbers,
};
use correcting::CorrectedNumbers;
use gather::Gathered;
use layout::{Layout, Rack, Tray};
use recover_correcting::RecoveredNumbers;
use repair::RepairNumbers;
use scrub::Walk;
use symbol::plain::ORDER;
use test_kept::KeptNumbers;

pub fn gesarumbo_measure(l: Layout) -> MeasureNumbers
    ensures { result ≡ measure_numbers (measured gf256.order l) }
{
    numbers::measure_numbers(layout::measure(ORDER as u32, l))
}

pub fn gesarumbo_test(l: Layout, codeword: &[u8]) -> TestNumbers
    ensures { Shown (TestAnswer gf256 l codeword.now) test_numbers result }
{
    numbers::test_numbers(testing::test(l, codeword))
}

pub fn gesarumbo_share(l: Layout, host: u32, helper: u32, rack: &[u8], share: &mut [u8]) -> u32
    ensures answer { result ≡ shares_refusal gf256 l 1 host helper rack.now (length share.old) }
    ensures buffer { share.new ≡ shares_buffer gf256 l 1 host helper rack.now share.old }
{
    share::share(l, Rack::of(host), Rack::of(helper), rack, share) as u32
}

pub fn gesarumbo_share_add(l: Layout, host: u32, tray: u32, symbols: &[u8], share: &mut [u8]) -> u32
    ensures answer { result ≡ fed_refusal gf256 l 1 host tray symbols.now share.old }
    ensures buffer { share.new ≡ fed_buffer gf256 l 1 host tray symbols.now share.old }
{
    share::share_add(l, Rack::of(host), Tray::of(tray), symbols, share) as u32
}

pub fn gesarumbo_share_many(
    l: Layout,
    count: u32,
    host: u32,
    helper: u32,
    rack: &[u8],
    share: &mut [u8],
) -> u32
    ensures answer { result ≡ many_refusal gf256 l count host helper rack.now (length share.old) }
    ensures buffer { share.new ≡ many_buffer gf256 l count host helper rack.now share.old }
{
    share::share_many(l, count, Rack::of(host), Rack::of(helper), rack, share) as u32
}

pub fn gesarumbo_share_add_many(
    l: Layout,
    count: u32,
    host: u32,
    tray: u32,
    symbols: &[u8],
    share: &mut [u8],
) -> u32
    ensures answer { result ≡ add_many_refusal gf256 l count host tray symbols.now share.old }
    ensures buffer { share.new ≡ add_many_buffer gf256 l count host tray symbols.now share.old }
{
    share::share_add_many(l, count, Rack::of(host), Tray::of(tray), symbols, share) as u32
}

pub fn gesarumbo_repair(
    l: Layout,
    lost: u32,
    helpers: &[u32],
    shares: &[u8],
    host: &[u8],
    spare: &mut [u8],
    first: u64,
    budget: u64,
) -> RepairNumbers
    ensures { Shown (RepairAnswer gf256 l (lost ∷ []) helpers.now shares.now host.now first budget spare.old
        spare.new) report result }
{
    numbers::repair_numbers(repair::repair(
        l,
        Tray::of(lost),
        helpers,
        shares,
        host,
        spare,
        first,
        budget,
    ))
}

pub fn gesarumbo_repair_many(
    l: Layout,
    lost: &[u32],
    helpers: &[u32],
    shares: &[u8],
    host: &[u8],
    spare: &mut [u8],
    first: u64,
    budget: u64,
) -> RepairNumbers
    ensures { Shown (RepairAnswer gf256 l lost.now helpers.now shares.now host.now first budget
        spare.old spare.new) report result }
{
    numbers::repair_numbers(repair::repair_named(
        lost, helpers, spare, l, shares, host, first, budget,
    ))
}

pub fn gesarumbo_share_batch(
    l: Layout,
    many: usize,
    host: u32,
    helper: u32,
    rack: &[u8],
    share: &mut [u8],
) -> u32
    ensures { ShareBatchAnswer gf256 l many host helper rack.now share.old share.new result }
{
    batch_share::share_batch(l, many, Rack::of(host), Rack::of(helper), rack, share) as u32
}

pub fn gesarumbo_repair_batch(
    l: Layout,
    many: usize,
    lost: u32,
    helpers: &[u32],
    shares: &[u8],
    host: &[u8],
    spare: &mut [u8],
    first: u64,
    budget: u64,
) -> RepairNumbers
    ensures { Shown (RepairBatchAnswer gf256 l many lost helpers.now shares.now host.now first budget spare.old
        spare.new) report result }
{
    numbers::repair_numbers(batch_repair::repair_batch(
        l,
        many,
        Tray::of(lost),
        helpers,
        shares,
        host,
        spare,
        first,
        budget,
    ))
}

pub fn gesarumbo_repair_correcting(
    l: Layout,
    lost: u32,
    helpers: &[u32],
    shares: &[u8],
    host: &[u8],
    spare: &mut [u8],
) -> CorrectedNumbers
    ensures { Shown (CorrectingAnswer gf256 l lost helpers.now shares.now host.now spare.old spare.new) corrected result }
{
    numbers::corrected_numbers(correcting::repair_correcting(
        l,
        Tray::of(lost),
        helpers,
        shares,
        host,
        spare,
    ))
}

pub fn gesarumbo_card(l: Layout, lost: u32, helpers: &[u32], group: u64, card: &mut [u8]) -> u32
    ensures { PrintAnswer gf256 l lost helpers.now group card.old card.new result }
{
    cards::card_print(l, Tray::of(lost), helpers, card, group) as u32
}

pub fn gesarumbo_card_test(l: Layout, lost: u32, helpers: &[u32], card: &[u8], group: u64) -> u32
    ensures { CardTest gf256 l lost helpers.now card.now group result }
{
    cards::card_test(l, Tray::of(lost), helpers, card, group) as u32
}

pub fn gesarumbo_card_repair(
    l: Layout,
    lost: u32,
    helpers: &[u32],
    card: &[u8],
    shares: &[u8],
    host: &[u8],
    spare: &mut [u8],
    group: u64,
) -> RepairNumbers
    ensures { Shown (CardAnswer gf256 l lost helpers.now card.now shares.now host.now group spare.old
        spare.new) report result }
{
    numbers::repair_numbers(cards::card_repair(
        l,
        Tray::of(lost),
        helpers,
        card,
        shares,
        host,
        spare,
        group,
    ))
}

pub fn gesarumbo_read_part<'a>(
    l: Layout,
    codeword: &'a [u8],
    spare: &'a [u8],
    lost: u32,
    done: u64,
    tray: u32,
    first: u32,
    end: u32,
) -> PartNumbers
    ensures { result ≡ part_numbers gf256.order l (length codeword.now) (length spare.now) lost done tray first end }
{
    let mut refusal = 0u32;
    let part = reading::read_part(
        l,
        codeword,
        spare,
        Tray::of(lost),
        done,
        Tray::of(tray),
        first,
        end,
        &mut refusal,
    );
    let length = part.len();
    if refusal != 0 {
        return PartNumbers {
            refusal: refusal,
            source: 0,
            offset: 0,
            length: 0,
        };
    }
    let start = tray as usize * layout::layer_count(l) as usize + first as usize;
    numbers::part_numbers(lost, tray, first, start, length)
}

pub fn gesarumbo_store(l: Layout, words: &[u8], codeword: &mut [u8]) -> u32
    ensures { StoreAnswer gf256 l words.now codeword.old codeword.new result }
{
    store::store(l, words, codeword) as u32
}

pub fn gesarumbo_store_batch(l: Layout, many: usize, words: &[u8], codewords: &mut [u8]) -> u32
    ensures { BatchStoreAnswer gf256 l many words.now codewords.old codewords.new result }
{
    batch_store::store_batch(l, many, words, codewords) as u32
}

pub fn gesarumbo_recover(l: Layout, codeword: &mut [u8], erased: &[u32]) -> u32
    ensures { RecoverAnswer gf256 l erased.now codeword.old codeword.new result }
{
    recover::recover(l, codeword, erased) as u32
}

pub fn gesarumbo_recover_correcting(
    l: Layout,
    codeword: &mut [u8],
    erased: &[u32],
) -> RecoveredNumbers
    ensures { Shown (CorrectionAnswer gf256 l erased.now codeword.old codeword.new) recovered result }
{
    numbers::recovered_numbers(recover_correcting::recover_correcting(l, codeword, erased))
}

pub fn gesarumbo_test_kept(l: Layout, codeword: &[u8], erased: &[u32]) -> KeptNumbers
    ensures { Shown (KeptAnswer gf256 l erased.now codeword.now) kept result }
{
    numbers::kept_numbers(test_kept::test_kept(l, codeword, erased))
}

pub fn gesarumbo_states(l: Layout, volume: u32, images: &[u8], states: &mut [u8]) -> u32
    ensures answer { result ≡ states_refusal edition1 l (length images.now) (length states.old) }
    ensures buffer { states.new ≡ states_buffer edition1 l volume images.now states.old }
{
    gather::states::states(l, volume, images, states) as u32
}

pub fn gesarumbo_gather(
    l: Layout,
    volume: u32,
    images: &[u8],
    codeword: &mut [u8],
    missing: &mut [u32],
) -> Gathered
    ensures { GatherAnswer edition1 l volume images.now codeword.old missing.old codeword.new missing.new result }
{
    gather::gather(l, volume, images, codeword, missing)
}

pub fn gesarumbo_gather_rack(
    l: Layout,
    volume: u32,
    rack: u32,
    lost: &[u32],
    images: &[u8],
    out: &mut [u8],
) -> u32
    ensures answer { result ≡ rack_refusal edition1 l volume rack lost.now images.now (length out.old) }
    ensures buffer { out.new ≡ rack_buffer edition1 l volume rack lost.now images.now out.old }
{
    gather::rack::gather_rack(l, volume, Rack::of(rack), lost, images, out) as u32
}

pub fn gesarumbo_margin(l: Layout, states: &[u8]) -> MarginNumbers
    ensures { result ≡ margin_numbers (margin_answer gf256.order l states.now) }
{
    numbers::margin_numbers(margin::margin(ORDER as u32, l, states))
}

pub fn gesarumbo_scrub_reset(l: Layout, walk: Walk) -> ScrubNumbers
    ensures { result ≡ scrub_numbers (begun gf256.order l walk) }
{
    numbers::scrub_numbers(scrub::reset(l, walk))
}

pub fn gesarumbo_scrub(l: Layout, codeword: &[u8], walk: Walk, budget: u64) -> ScrubNumbers
    ensures { result ≡ scrub_numbers (scrubbed gf256 l codeword.now walk budget) }
{
    numbers::scrub_numbers(scrub::step(l, codeword, walk, budget))
}

// The reset with the record lent, and changed in its place.
pub fn gesarumbo_scrub_reset_in_place(l: Layout, walk: &mut Walk) -> ReportNumbers
    ensures { (result ≡ report_numbers (begun gf256.order l walk.old).report) × (walk.new ≡ (begun gf256.order l walk.old).walk) }
{
    let begun = gesarumbo_scrub_reset(l, *walk);
    *walk = begun.walk;
    ReportNumbers {
        refusal: begun.refusal,
        report: begun.report,
    }
}

// The step with the record lent, and changed in its place.
pub fn gesarumbo_scrub_in_place(
    l: Layout,
    codeword: &[u8],
    walk: &mut Walk,
    budget: u64,
) -> ReportNumbers
    ensures { (result ≡ report_numbers (scrubbed gf256 l codeword.now walk.old budget).report)
        × (walk.new ≡ (scrubbed gf256 l codeword.now walk.old budget).walk) }
{
    let s = gesarumbo_scrub(l, codeword, *walk, budget);
    *walk = s.walk;
    ReportNumbers {
        refusal: s.refusal,
        report: s.report,
    }
}
