// What C calls of the sixteen-tray box, as of the other calls: one function for each call, which repeats its contract.
ghost use Rattle.std.specs.Prelude.{◌≡◌, length};
ghost use Rattle.box_words.specs.Store.{store_refusal, store_buffer};
ghost use Rattle.box_recover.specs.Recover.{RecoverAnswer, DataAnswer};
ghost use Rattle.box_repair.specs.Share.{ShareAnswer};
ghost use Rattle.box_repair.specs.Repair.{RepairAnswer};

use box_repair::Repaired;
use layout::{Rack, Tray};

pub fn gesarumbo_box_store(given: &[u8], out: &mut [u8]) -> u32
    ensures answer { result ≡ store_refusal given.now (length out.old) }
    ensures buffer { out.new ≡ store_buffer given.now out.old }
{
    box_words::box_store(given, out) as u32
}

pub fn gesarumbo_box_recover(values: &mut [u8], erased: &[u32]) -> u32
    ensures { RecoverAnswer erased.now values.old values.new result }
{
    box_recover::box_recover(values, erased) as u32
}

pub fn gesarumbo_box_data(values: &[u8], erased: &[u32], out: &mut [u8]) -> u32
    ensures { DataAnswer erased.now values.now out.old out.new result }
{
    box_recover::box_data(values, erased, out) as u32
}

pub fn gesarumbo_box_share(host: u32, helper: u32, values: &[u8], out: &mut [u8]) -> u32
    ensures { ShareAnswer host helper values.now out.old out.new result }
{
    box_repair::box_share(Rack::of(host), Rack::of(helper), values, out) as u32
}

pub fn gesarumbo_box_repair(
    lost: u32,
    helpers: &[u32],
    shares: &[u8],
    rack: &[u8],
    spare: &mut [u8],
) -> Repaired
    ensures { RepairAnswer lost helpers.now shares.now rack.now spare.old spare.new result }
{
    box_repair::box_repair(Tray::of(lost), helpers, shares, rack, spare)
}
