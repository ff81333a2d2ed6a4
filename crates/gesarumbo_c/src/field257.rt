// Made by tools/twin.py from crates/gesarumbo_c/src/field256.rt.
// The exports over the field modulo 257.
ghost use Rattle.std.specs.Prelude.{◌≡◌, [], ◌∷◌, length};
ghost use Rattle.symbol257.specs.Elem.{gf257};
ghost use Rattle.layout.specs.Layout.{measured};
ghost use Rattle.recover.specs.Recover.{RecoverAnswer};
ghost use Rattle.store.specs.Store.{StoreAnswer};
ghost use Rattle.batch_store.specs.Store.{BatchStoreAnswer};
ghost use Rattle.margin.specs.Margin.{margin_answer};
ghost use Rattle.share.specs.Many.{shares_refusal, shares_buffer, fed_refusal, fed_buffer, many_refusal, many_buffer, add_many_refusal, add_many_buffer};
ghost use Rattle.scrub.specs.Scrub.{scrubbed, begun};
ghost use Rattle.codeword.specs.Test.{TestAnswer};
ghost use Rattle.repair.specs.Repair.{report, RepairAnswer};
ghost use Rattle.batch_share.specs.ShareBatch.{ShareBatchAnswer};
ghost use Rattle.batch_repair.specs.RepairBatch.{RepairBatchAnswer};
ghost use Rattle.correcting.specs.Correcting.{report as corrected, CorrectingAnswer};
ghost use Rattle.cards.specs.Cards.{PrintAnswer, CardAnswer, TestAnswer as CardTest};
ghost use Rattle.recover_correcting.specs.RecoverCorrecting.{report as recovered, CorrectionAnswer};
ghost use Rattle.test_kept.specs.TestKept.{report as kept, KeptAnswer};
ghost use Rattle.image.specs.Image.{edition2};
ghost use Rattle.gather.specs.Gathering.{states_refusal, states_buffer, GatherAnswer, rack_refusal, rack_buffer};
ghost use Rattle.gesarumbo.specs.Boundary.{measure_numbers, test_numbers, margin_numbers, scrub_numbers, report_numbers, part_numbers, Shown};

use correcting::CorrectedNumbers;
use gather::Gathered;
use gesarumbo::numbers::{
    MarginNumbers, MeasureNumbers, PartNumbers, ReportNumbers, ScrubNumbers, TestNumbers,
};
use layout::Layout;
use recover_correcting::RecoveredNumbers;
use repair::RepairNumbers;
use scrub::Walk;
use test_kept::KeptNumbers;

#[unsafe(no_mangle)]
pub extern "C" fn gesarumbo257_measure(l: Layout) -> MeasureNumbers
    ensures { result ≡ measure_numbers (measured gf257.order l) }
{
    gesarumbo::field257::gesarumbo257_measure(l)
}

#[unsafe(no_mangle)]
pub extern "C" fn gesarumbo257_test(l: Layout, codeword: &[u16]) -> TestNumbers
    ensures { Shown (TestAnswer gf257 l codeword.now) test_numbers result }
{
    gesarumbo::field257::gesarumbo257_test(l, codeword)
}

#[unsafe(no_mangle)]
pub extern "C" fn gesarumbo257_share(
    l: Layout,
    host: u32,
    helper: u32,
    rack: &[u16],
    share: &mut [u16],
) -> u32
    ensures answer { result ≡ shares_refusal gf257 l 1 host helper rack.now (length share.old) }
    ensures buffer { share.new ≡ shares_buffer gf257 l 1 host helper rack.now share.old }
{
    gesarumbo::field257::gesarumbo257_share(l, host, helper, rack, share)
}

#[unsafe(no_mangle)]
pub extern "C" fn gesarumbo257_share_add(
    l: Layout,
    host: u32,
    tray: u32,
    symbols: &[u16],
    share: &mut [u16],
) -> u32
    ensures answer { result ≡ fed_refusal gf257 l 1 host tray symbols.now share.old }
    ensures buffer { share.new ≡ fed_buffer gf257 l 1 host tray symbols.now share.old }
{
    gesarumbo::field257::gesarumbo257_share_add(l, host, tray, symbols, share)
}

#[unsafe(no_mangle)]
pub extern "C" fn gesarumbo257_share_many(
    l: Layout,
    count: u32,
    host: u32,
    helper: u32,
    rack: &[u16],
    share: &mut [u16],
) -> u32
    ensures answer { result ≡ many_refusal gf257 l count host helper rack.now (length share.old) }
    ensures buffer { share.new ≡ many_buffer gf257 l count host helper rack.now share.old }
{
    gesarumbo::field257::gesarumbo257_share_many(l, count, host, helper, rack, share)
}

#[unsafe(no_mangle)]
pub extern "C" fn gesarumbo257_share_add_many(
    l: Layout,
    count: u32,
    host: u32,
    tray: u32,
    symbols: &[u16],
    share: &mut [u16],
) -> u32
    ensures answer { result ≡ add_many_refusal gf257 l count host tray symbols.now share.old }
    ensures buffer { share.new ≡ add_many_buffer gf257 l count host tray symbols.now share.old }
{
    gesarumbo::field257::gesarumbo257_share_add_many(l, count, host, tray, symbols, share)
}

#[unsafe(no_mangle)]
pub extern "C" fn gesarumbo257_repair(
    l: Layout,
    lost: u32,
    helpers: &[u32],
    shares: &[u16],
    host: &[u16],
    spare: &mut [u16],
    first: u64,
    budget: u64,
) -> RepairNumbers
    ensures { Shown (RepairAnswer gf257 l (lost ∷ []) helpers.now shares.now host.now first budget spare.old
        spare.new) report result }
{
    gesarumbo::field257::gesarumbo257_repair(l, lost, helpers, shares, host, spare, first, budget)
}

#[unsafe(no_mangle)]
pub extern "C" fn gesarumbo257_repair_many(
    l: Layout,
    lost: &[u32],
    helpers: &[u32],
    shares: &[u16],
    host: &[u16],
    spare: &mut [u16],
    first: u64,
    budget: u64,
) -> RepairNumbers
    ensures { Shown (RepairAnswer gf257 l lost.now helpers.now shares.now host.now first budget
        spare.old spare.new) report result }
{
    gesarumbo::field257::gesarumbo257_repair_many(
        l, lost, helpers, shares, host, spare, first, budget,
    )
}

#[unsafe(no_mangle)]
pub extern "C" fn gesarumbo257_share_batch(
    l: Layout,
    many: usize,
    host: u32,
    helper: u32,
    rack: &[u16],
    share: &mut [u16],
) -> u32
    ensures { ShareBatchAnswer gf257 l many host helper rack.now share.old share.new result }
{
    gesarumbo::field257::gesarumbo257_share_batch(l, many, host, helper, rack, share)
}

#[unsafe(no_mangle)]
pub extern "C" fn gesarumbo257_repair_batch(
    l: Layout,
    many: usize,
    lost: u32,
    helpers: &[u32],
    shares: &[u16],
    host: &[u16],
    spare: &mut [u16],
    first: u64,
    budget: u64,
) -> RepairNumbers
    ensures { Shown (RepairBatchAnswer gf257 l many lost helpers.now shares.now host.now first budget spare.old
        spare.new) report result }
{
    gesarumbo::field257::gesarumbo257_repair_batch(
        l, many, lost, helpers, shares, host, spare, first, budget,
    )
}

#[unsafe(no_mangle)]
pub extern "C" fn gesarumbo257_repair_correcting(
    l: Layout,
    lost: u32,
    helpers: &[u32],
    shares: &[u16],
    host: &[u16],
    spare: &mut [u16],
) -> CorrectedNumbers
    ensures { Shown (CorrectingAnswer gf257 l lost helpers.now shares.now host.now spare.old spare.new) corrected result }
{
    gesarumbo::field257::gesarumbo257_repair_correcting(l, lost, helpers, shares, host, spare)
}

#[unsafe(no_mangle)]
pub extern "C" fn gesarumbo257_card(
    l: Layout,
    lost: u32,
    helpers: &[u32],
    group: u64,
    card: &mut [u16],
) -> u32
    ensures { PrintAnswer gf257 l lost helpers.now group card.old card.new result }
{
    gesarumbo::field257::gesarumbo257_card(l, lost, helpers, group, card)
}

#[unsafe(no_mangle)]
pub extern "C" fn gesarumbo257_card_test(
    l: Layout,
    lost: u32,
    helpers: &[u32],
    card: &[u16],
    group: u64,
) -> u32
    ensures { CardTest gf257 l lost helpers.now card.now group result }
{
    gesarumbo::field257::gesarumbo257_card_test(l, lost, helpers, card, group)
}

#[unsafe(no_mangle)]
pub extern "C" fn gesarumbo257_card_repair(
    l: Layout,
    lost: u32,
    helpers: &[u32],
    card: &[u16],
    shares: &[u16],
    host: &[u16],
    spare: &mut [u16],
    group: u64,
) -> RepairNumbers
    ensures { Shown (CardAnswer gf257 l lost helpers.now card.now shares.now host.now group spare.old
        spare.new) report result }
{
    gesarumbo::field257::gesarumbo257_card_repair(
        l, lost, helpers, card, shares, host, spare, group,
    )
}

#[unsafe(no_mangle)]
pub extern "C" fn gesarumbo257_read_part<'a>(
    l: Layout,
    codeword: &'a [u16],
    spare: &'a [u16],
    lost: u32,
    done: u64,
    tray: u32,
    first: u32,
    end: u32,
) -> PartNumbers
    ensures { result ≡ part_numbers gf257.order l (length codeword.now) (length spare.now) lost done tray first end }
{
    gesarumbo::field257::gesarumbo257_read_part(l, codeword, spare, lost, done, tray, first, end)
}

#[unsafe(no_mangle)]
pub extern "C" fn gesarumbo257_store(l: Layout, words: &[u16], codeword: &mut [u16]) -> u32
    ensures { StoreAnswer gf257 l words.now codeword.old codeword.new result }
{
    gesarumbo::field257::gesarumbo257_store(l, words, codeword)
}

#[unsafe(no_mangle)]
pub extern "C" fn gesarumbo257_store_batch(
    l: Layout,
    many: usize,
    words: &[u16],
    codewords: &mut [u16],
) -> u32
    ensures { BatchStoreAnswer gf257 l many words.now codewords.old codewords.new result }
{
    gesarumbo::field257::gesarumbo257_store_batch(l, many, words, codewords)
}

#[unsafe(no_mangle)]
pub extern "C" fn gesarumbo257_recover(l: Layout, codeword: &mut [u16], erased: &[u32]) -> u32
    ensures { RecoverAnswer gf257 l erased.now codeword.old codeword.new result }
{
    gesarumbo::field257::gesarumbo257_recover(l, codeword, erased)
}

#[unsafe(no_mangle)]
pub extern "C" fn gesarumbo257_recover_correcting(
    l: Layout,
    codeword: &mut [u16],
    erased: &[u32],
) -> RecoveredNumbers
    ensures { Shown (CorrectionAnswer gf257 l erased.now codeword.old codeword.new) recovered result }
{
    gesarumbo::field257::gesarumbo257_recover_correcting(l, codeword, erased)
}

#[unsafe(no_mangle)]
pub extern "C" fn gesarumbo257_test_kept(l: Layout, codeword: &[u16], erased: &[u32]) -> KeptNumbers
    ensures { Shown (KeptAnswer gf257 l erased.now codeword.now) kept result }
{
    gesarumbo::field257::gesarumbo257_test_kept(l, codeword, erased)
}

#[unsafe(no_mangle)]
pub extern "C" fn gesarumbo257_states(
    l: Layout,
    volume: u32,
    images: &[u8],
    states: &mut [u8],
) -> u32
    ensures answer { result ≡ states_refusal edition2 l (length images.now) (length states.old) }
    ensures buffer { states.new ≡ states_buffer edition2 l volume images.now states.old }
{
    gesarumbo::field257::gesarumbo257_states(l, volume, images, states)
}

#[unsafe(no_mangle)]
pub extern "C" fn gesarumbo257_gather(
    l: Layout,
    volume: u32,
    images: &[u8],
    codeword: &mut [u16],
    missing: &mut [u32],
) -> Gathered
    ensures { GatherAnswer edition2 l volume images.now codeword.old missing.old codeword.new missing.new result }
{
    gesarumbo::field257::gesarumbo257_gather(l, volume, images, codeword, missing)
}

#[unsafe(no_mangle)]
pub extern "C" fn gesarumbo257_gather_rack(
    l: Layout,
    volume: u32,
    rack: u32,
    lost: &[u32],
    images: &[u8],
    out: &mut [u16],
) -> u32
    ensures answer { result ≡ rack_refusal edition2 l volume rack lost.now images.now (length out.old) }
    ensures buffer { out.new ≡ rack_buffer edition2 l volume rack lost.now images.now out.old }
{
    gesarumbo::field257::gesarumbo257_gather_rack(l, volume, rack, lost, images, out)
}

#[unsafe(no_mangle)]
pub extern "C" fn gesarumbo257_margin(l: Layout, states: &[u8]) -> MarginNumbers
    ensures { result ≡ margin_numbers (margin_answer gf257.order l states.now) }
{
    gesarumbo::field257::gesarumbo257_margin(l, states)
}

#[unsafe(no_mangle)]
pub extern "C" fn gesarumbo257_scrub_reset(l: Layout, walk: Walk) -> ScrubNumbers
    ensures { result ≡ scrub_numbers (begun gf257.order l walk) }
{
    gesarumbo::field257::gesarumbo257_scrub_reset(l, walk)
}

#[unsafe(no_mangle)]
pub extern "C" fn gesarumbo257_scrub(
    l: Layout,
    codeword: &[u16],
    walk: Walk,
    budget: u64,
) -> ScrubNumbers
    ensures { result ≡ scrub_numbers (scrubbed gf257 l codeword.now walk budget) }
{
    gesarumbo::field257::gesarumbo257_scrub(l, codeword, walk, budget)
}

// The reset with the record lent, and changed in its place.
#[unsafe(no_mangle)]
pub extern "C" fn gesarumbo257_scrub_reset_in_place(l: Layout, walk: &mut Walk) -> ReportNumbers
    ensures { (result ≡ report_numbers (begun gf257.order l walk.old).report) × (walk.new ≡ (begun gf257.order l walk.old).walk) }
{
    gesarumbo::field257::gesarumbo257_scrub_reset_in_place(l, walk)
}

// The step with the record lent, and changed in its place.
#[unsafe(no_mangle)]
pub extern "C" fn gesarumbo257_scrub_in_place(
    l: Layout,
    codeword: &[u16],
    walk: &mut Walk,
    budget: u64,
) -> ReportNumbers
    ensures { (result ≡ report_numbers (scrubbed gf257 l codeword.now walk.old budget).report)
        × (walk.new ≡ (scrubbed gf257 l codeword.now walk.old budget).walk) }
{
    gesarumbo::field257::gesarumbo257_scrub_in_place(l, codeword, walk, budget)
}
