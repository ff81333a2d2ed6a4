// The exports over the field of 256.
ghost use Rattle.std.specs.Prelude.{◌≡◌, [], ◌∷◌, length};
ghost use Rattle.symbol.specs.Elem.{gf256};
ghost use Rattle.layout.specs.Layout.{measured};
ghost use Rattle.recover.specs.Recover.{RecoverAnswer};
ghost use Rattle.store.specs.Store.{StoreAnswer};
ghost use Rattle.batch_store.specs.Store.{BatchStoreAnswer};
ghost use Rattle.margin.specs.Margin.{margin_answer};
ghost use Rattle.share.specs.Many.{shares_refusal, shares_buffer, fed_refusal, fed_buffer, many_refusal, many_buffer, add_many_refusal, add_many_buffer};
ghost use Rattle.scrub.specs.Scrub.{scrubbed, begun};
ghost use Rattle.codeword.specs.Test.{TestAnswer};
ghost use Rattle.repair.specs.Repair.{report, RepairAnswer};
ghost use Rattle.batch_share.specs.ShareBatch.{ShareBatchAnswer};
ghost use Rattle.batch_repair.specs.RepairBatch.{RepairBatchAnswer};
ghost use Rattle.correcting.specs.Correcting.{report as corrected, CorrectingAnswer};
ghost use Rattle.cards.specs.Cards.{PrintAnswer, CardAnswer, TestAnswer as CardTest};
ghost use Rattle.recover_correcting.specs.RecoverCorrecting.{report as recovered, CorrectionAnswer};
ghost use Rattle.test_kept.specs.TestKept.{report as kept, KeptAnswer};
ghost use Rattle.image.specs.Image.{edition1};
ghost use Rattle.gather.specs.Gathering.{states_refusal, states_buffer, GatherAnswer, rack_refusal, rack_buffer};
ghost use Rattle.gesarumbo.specs.Boundary.{measure_numbers, test_numbers, margin_numbers, scrub_numbers, report_numbers, part_numbers, Shown};

use correcting::CorrectedNumbers;
use gather::Gathered;
use gesarumbo::numbers::{
    MarginNumbers, MeasureNumbers, PartNumbers, ReportNumbers, ScrubNumbers, TestNumbers,
};
use layout::Layout;
use recover_correcting::RecoveredNumbers;
use repair::RepairNumbers;
use scrub::Walk;
use test_kept::KeptNumbers;

#[unsafe(no_mangle)]
pub extern "C" fn gesarumbo_measure(l: Layout) -> MeasureNumbers
    ensures { result ≡ measure_numbers (measured gf256.order l) }
{
    gesarumbo::field256::gesarumbo_measure(l)
}

#[unsafe(no_mangle)]
pub extern "C" fn gesarumbo_test(l: Layout, codeword: &[u8]) -> TestNumbers
    ensures { Shown (TestAnswer gf256 l codeword.now) test_numbers result }
{
    gesarumbo::field256::gesarumbo_test(l, codeword)
}

#[unsafe(no_mangle)]
pub extern "C" fn gesarumbo_share(
    l: Layout,
    host: u32,
    helper: u32,
    rack: &[u8],
    share: &mut [u8],
) -> u32
    ensures answer { result ≡ shares_refusal gf256 l 1 host helper rack.now (length share.old) }
    ensures buffer { share.new ≡ shares_buffer gf256 l 1 host helper rack.now share.old }
{
    gesarumbo::field256::gesarumbo_share(l, host, helper, rack, share)
}

#[unsafe(no_mangle)]
pub extern "C" fn gesarumbo_share_add(
    l: Layout,
    host: u32,
    tray: u32,
    symbols: &[u8],
    share: &mut [u8],
) -> u32
    ensures answer { result ≡ fed_refusal gf256 l 1 host tray symbols.now share.old }
    ensures buffer { share.new ≡ fed_buffer gf256 l 1 host tray symbols.now share.old }
{
    gesarumbo::field256::gesarumbo_share_add(l, host, tray, symbols, share)
}

#[unsafe(no_mangle)]
pub extern "C" fn gesarumbo_share_many(
    l: Layout,
    count: u32,
    host: u32,
    helper: u32,
    rack: &[u8],
    share: &mut [u8],
) -> u32
    ensures answer { result ≡ many_refusal gf256 l count host helper rack.now (length share.old) }
    ensures buffer { share.new ≡ many_buffer gf256 l count host helper rack.now share.old }
{
    gesarumbo::field256::gesarumbo_share_many(l, count, host, helper, rack, share)
}

#[unsafe(no_mangle)]
pub extern "C" fn gesarumbo_share_add_many(
    l: Layout,
    count: u32,
    host: u32,
    tray: u32,
    symbols: &[u8],
    share: &mut [u8],
) -> u32
    ensures answer { result ≡ add_many_refusal gf256 l count host tray symbols.now share.old }
    ensures buffer { share.new ≡ add_many_buffer gf256 l count host tray symbols.now share.old }
{
    gesarumbo::field256::gesarumbo_share_add_many(l, count, host, tray, symbols, share)
}

#[unsafe(no_mangle)]
pub extern "C" fn gesarumbo_repair(
    l: Layout,
    lost: u32,
    helpers: &[u32],
    shares: &[u8],
    host: &[u8],
    spare: &mut [u8],
    first: u64,
    budget: u64,
) -> RepairNumbers
    ensures { Shown (RepairAnswer gf256 l (lost ∷ []) helpers.now shares.now host.now first budget spare.old
        spare.new) report result }
{
    gesarumbo::field256::gesarumbo_repair(l, lost, helpers, shares, host, spare, first, budget)
}

#[unsafe(no_mangle)]
pub extern "C" fn gesarumbo_repair_many(
    l: Layout,
    lost: &[u32],
    helpers: &[u32],
    shares: &[u8],
    host: &[u8],
    spare: &mut [u8],
    first: u64,
    budget: u64,
) -> RepairNumbers
    ensures { Shown (RepairAnswer gf256 l lost.now helpers.now shares.now host.now first budget
        spare.old spare.new) report result }
{
    gesarumbo::field256::gesarumbo_repair_many(l, lost, helpers, shares, host, spare, first, budget)
}

#[unsafe(no_mangle)]
pub extern "C" fn gesarumbo_share_batch(
    l: Layout,
    many: usize,
    host: u32,
    helper: u32,
    rack: &[u8],
    share: &mut [u8],
) -> u32
    ensures { ShareBatchAnswer gf256 l many host helper rack.now share.old share.new result }
{
    gesarumbo::field256::gesarumbo_share_batch(l, many, host, helper, rack, share)
}

#[unsafe(no_mangle)]
pub extern "C" fn gesarumbo_repair_batch(
    l: Layout,
    many: usize,
    lost: u32,
    helpers: &[u32],
    shares: &[u8],
    host: &[u8],
    spare: &mut [u8],
    first: u64,
    budget: u64,
) -> RepairNumbers
    ensures { Shown (RepairBatchAnswer gf256 l many lost helpers.now shares.now host.now first budget spare.old
        spare.new) report result }
{
    gesarumbo::field256::gesarumbo_repair_batch(
        l, many, lost, helpers, shares, host, spare, first, budget,
    )
}

#[unsafe(no_mangle)]
pub extern "C" fn gesarumbo_repair_correcting(
    l: Layout,
    lost: u32,
    helpers: &[u32],
    shares: &[u8],
    host: &[u8],
    spare: &mut [u8],
) -> CorrectedNumbers
    ensures { Shown (CorrectingAnswer gf256 l lost helpers.now shares.now host.now spare.old spare.new) corrected result }
{
    gesarumbo::field256::gesarumbo_repair_correcting(l, lost, helpers, shares, host, spare)
}

#[unsafe(no_mangle)]
pub extern "C" fn gesarumbo_card(
    l: Layout,
    lost: u32,
    helpers: &[u32],
    group: u64,
    card: &mut [u8],
) -> u32
    ensures { PrintAnswer gf256 l lost helpers.now group card.old card.new result }
{
    gesarumbo::field256::gesarumbo_card(l, lost, helpers, group, card)
}

#[unsafe(no_mangle)]
pub extern "C" fn gesarumbo_card_test(
    l: Layout,
    lost: u32,
    helpers: &[u32],
    card: &[u8],
    group: u64,
) -> u32
    ensures { CardTest gf256 l lost helpers.now card.now group result }
{
    gesarumbo::field256::gesarumbo_card_test(l, lost, helpers, card, group)
}

#[unsafe(no_mangle)]
pub extern "C" fn gesarumbo_card_repair(
    l: Layout,
    lost: u32,
    helpers: &[u32],
    card: &[u8],
    shares: &[u8],
    host: &[u8],
    spare: &mut [u8],
    group: u64,
) -> RepairNumbers
    ensures { Shown (CardAnswer gf256 l lost helpers.now card.now shares.now host.now group spare.old
        spare.new) report result }
{
    gesarumbo::field256::gesarumbo_card_repair(l, lost, helpers, card, shares, host, spare, group)
}

#[unsafe(no_mangle)]
pub extern "C" fn gesarumbo_read_part<'a>(
    l: Layout,
    codeword: &'a [u8],
    spare: &'a [u8],
    lost: u32,
    done: u64,
    tray: u32,
    first: u32,
    end: u32,
) -> PartNumbers
    ensures { result ≡ part_numbers gf256.order l (length codeword.now) (length spare.now) lost done tray first end }
{
    gesarumbo::field256::gesarumbo_read_part(l, codeword, spare, lost, done, tray, first, end)
}

#[unsafe(no_mangle)]
pub extern "C" fn gesarumbo_store(l: Layout, words: &[u8], codeword: &mut [u8]) -> u32
    ensures { StoreAnswer gf256 l words.now codeword.old codeword.new result }
{
    gesarumbo::field256::gesarumbo_store(l, words, codeword)
}

#[unsafe(no_mangle)]
pub extern "C" fn gesarumbo_store_batch(
    l: Layout,
    many: usize,
    words: &[u8],
    codewords: &mut [u8],
) -> u32
    ensures { BatchStoreAnswer gf256 l many words.now codewords.old codewords.new result }
{
    gesarumbo::field256::gesarumbo_store_batch(l, many, words, codewords)
}

#[unsafe(no_mangle)]
pub extern "C" fn gesarumbo_recover(l: Layout, codeword: &mut [u8], erased: &[u32]) -> u32
    ensures { RecoverAnswer gf256 l erased.now codeword.old codeword.new result }
{
    gesarumbo::field256::gesarumbo_recover(l, codeword, erased)
}

#[unsafe(no_mangle)]
pub extern "C" fn gesarumbo_recover_correcting(
    l: Layout,
    codeword: &mut [u8],
    erased: &[u32],
) -> RecoveredNumbers
    ensures { Shown (CorrectionAnswer gf256 l erased.now codeword.old codeword.new) recovered result }
{
    gesarumbo::field256::gesarumbo_recover_correcting(l, codeword, erased)
}

#[unsafe(no_mangle)]
pub extern "C" fn gesarumbo_test_kept(l: Layout, codeword: &[u8], erased: &[u32]) -> KeptNumbers
    ensures { Shown (KeptAnswer gf256 l erased.now codeword.now) kept result }
{
    gesarumbo::field256::gesarumbo_test_kept(l, codeword, erased)
}

#[unsafe(no_mangle)]
pub extern "C" fn gesarumbo_states(l: Layout, volume: u32, images: &[u8], states: &mut [u8]) -> u32
    ensures answer { result ≡ states_refusal edition1 l (length images.now) (length states.old) }
    ensures buffer { states.new ≡ states_buffer edition1 l volume images.now states.old }
{
    gesarumbo::field256::gesarumbo_states(l, volume, images, states)
}

#[unsafe(no_mangle)]
pub extern "C" fn gesarumbo_gather(
    l: Layout,
    volume: u32,
    images: &[u8],
    codeword: &mut [u8],
    missing: &mut [u32],
) -> Gathered
    ensures { GatherAnswer edition1 l volume images.now codeword.old missing.old codeword.new missing.new result }
{
    gesarumbo::field256::gesarumbo_gather(l, volume, images, codeword, missing)
}

#[unsafe(no_mangle)]
pub extern "C" fn gesarumbo_gather_rack(
    l: Layout,
    volume: u32,
    rack: u32,
    lost: &[u32],
    images: &[u8],
    out: &mut [u8],
) -> u32
    ensures answer { result ≡ rack_refusal edition1 l volume rack lost.now images.now (length out.old) }
    ensures buffer { out.new ≡ rack_buffer edition1 l volume rack lost.now images.now out.old }
{
    gesarumbo::field256::gesarumbo_gather_rack(l, volume, rack, lost, images, out)
}

#[unsafe(no_mangle)]
pub extern "C" fn gesarumbo_margin(l: Layout, states: &[u8]) -> MarginNumbers
    ensures { result ≡ margin_numbers (margin_answer gf256.order l states.now) }
{
    gesarumbo::field256::gesarumbo_margin(l, states)
}

#[unsafe(no_mangle)]
pub extern "C" fn gesarumbo_scrub_reset(l: Layout, walk: Walk) -> ScrubNumbers
    ensures { result ≡ scrub_numbers (begun gf256.order l walk) }
{
    gesarumbo::field256::gesarumbo_scrub_reset(l, walk)
}

#[unsafe(no_mangle)]
pub extern "C" fn gesarumbo_scrub(
    l: Layout,
    codeword: &[u8],
    walk: Walk,
    budget: u64,
) -> ScrubNumbers
    ensures { result ≡ scrub_numbers (scrubbed gf256 l codeword.now walk budget) }
{
    gesarumbo::field256::gesarumbo_scrub(l, codeword, walk, budget)
}

// The reset with the record lent, and changed in its place.
#[unsafe(no_mangle)]
pub extern "C" fn gesarumbo_scrub_reset_in_place(l: Layout, walk: &mut Walk) -> ReportNumbers
    ensures { (result ≡ report_numbers (begun gf256.order l walk.old).report) × (walk.new ≡ (begun gf256.order l walk.old).walk) }
{
    gesarumbo::field256::gesarumbo_scrub_reset_in_place(l, walk)
}

// The step with the record lent, and changed in its place.
#[unsafe(no_mangle)]
pub extern "C" fn gesarumbo_scrub_in_place(
    l: Layout,
    codeword: &[u8],
    walk: &mut Walk,
    budget: u64,
) -> ReportNumbers
    ensures { (result ≡ report_numbers (scrubbed gf256 l codeword.now walk.old budget).report)
        × (walk.new ≡ (scrubbed gf256 l codeword.now walk.old budget).walk) }
{
    gesarumbo::field256::gesarumbo_scrub_in_place(l, codeword, walk, budget)
}
