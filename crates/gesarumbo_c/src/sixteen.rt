// The exports of the sixteen-tray box.
ghost use Rattle.std.specs.Prelude.{◌≡◌, length};
ghost use Rattle.box_words.specs.Store.{store_refusal, store_buffer};
ghost use Rattle.box_recover.specs.Recover.{RecoverAnswer, DataAnswer};
ghost use Rattle.box_repair.specs.Share.{ShareAnswer};
ghost use Rattle.box_repair.specs.Repair.{RepairAnswer};

use box_repair::Repaired;

#[unsafe(no_mangle)]
pub extern "C" fn gesarumbo_box_store(given: &[u8], out: &mut [u8]) -> u32
    ensures answer { result ≡ store_refusal given.now (length out.old) }
    ensures buffer { out.new ≡ store_buffer given.now out.old }
{
    gesarumbo::sixteen::gesarumbo_box_store(given, out)
}

#[unsafe(no_mangle)]
pub extern "C" fn gesarumbo_box_recover(values: &mut [u8], erased: &[u32]) -> u32
    ensures { RecoverAnswer erased.now values.old values.new result }
{
    gesarumbo::sixteen::gesarumbo_box_recover(values, erased)
}

#[unsafe(no_mangle)]
pub extern "C" fn gesarumbo_box_data(values: &[u8], erased: &[u32], out: &mut [u8]) -> u32
    ensures { DataAnswer erased.now values.now out.old out.new result }
{
    gesarumbo::sixteen::gesarumbo_box_data(values, erased, out)
}

#[unsafe(no_mangle)]
pub extern "C" fn gesarumbo_box_share(host: u32, helper: u32, values: &[u8], out: &mut [u8]) -> u32
    ensures { ShareAnswer host helper values.now out.old out.new result }
{
    gesarumbo::sixteen::gesarumbo_box_share(host, helper, values, out)
}

#[unsafe(no_mangle)]
pub extern "C" fn gesarumbo_box_repair(
    lost: u32,
    helpers: &[u32],
    shares: &[u8],
    rack: &[u8],
    spare: &mut [u8],
) -> Repaired
    ensures { RepairAnswer lost helpers.now shares.now rack.now spare.old spare.new result }
{
    gesarumbo::sixteen::gesarumbo_box_repair(lost, helpers, shares, rack, spare)
}
