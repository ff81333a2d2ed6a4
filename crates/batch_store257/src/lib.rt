// Made by tools/twin.py from crates/batch_store/src/lib.rt.
// Storing many codewords of one layout at once, interleaved: symbol (x, j) of codeword q of `many` stands at (x·L + j)·many + q, and likewise the data. Promises
// of every codeword what storing promises of one; a layout or length that does not fit is refused and no symbol changes.
#![tactic(auto)]

ghost use Rattle.std.specs.Prelude.{◌≡◌, ◌+◌, ◌≤◌, length};
ghost use Rattle.lists.specs.Lists.{table};
ghost use Rattle.symbol257.specs.Elem.{gf257};
ghost use Rattle.layout.specs.Layout.{checks, tray_limit};
ghost use Rattle.kernel.specs.Inner.{Run, copied};
ghost use Rattle.store.specs.Inner.{parity_trays};
ghost use Rattle.batch_restore.specs.Inner.{Restored};
ghost use Rattle.batch_store.specs.Store.{batch_store_refusal, BatchStoreAnswer};
ghost use Rattle.batch_store.specs.Inner.{Writable};

use layout::Layout;
use symbol257::plain::ORDER;

// The most trays of a cabinet, for the list of those that are worked out.
const TRAYS: usize = layout::TRAYS as usize;

// The first ground for refusing, 0 for none.
fn refusal(l: Layout, many: usize, given: &[u16], room: usize) -> u8
    ensures { result ≡ batch_store_refusal gf257 l many given.now room }
{
    let k = l.dimension;
    if !layout::admitted(ORDER as u32, l) {
        return 1;
    }
    let total = layout::layer_count(l) as usize;
    if !batch_parts::is_times(given.len(), k as usize * total, many) {
        return 2;
    }
    if !batch_parts::is_times(room, layout::tray_count(l) as usize * total, many) {
        return 2;
    }
    if !range::are_symbols(given, 0, given.len()) {
        return 3;
    }
    0
}

// Lists the trays from a number on.
fn trays_from(first: u32, list: &mut [u32])
    requires { (first ≤ tray_limit) × (length list.old ≤ tray_limit) }
    ensures { list.new ≡ table (λ i. first + i) (length list.old) }
{
    for (i, tray) in list.iter_mut().enumerate() {
        *tray = first + i as u32;
    }
}

// Works out the trays after the data, with room for their list.
fn parity_in(l: Layout, many: usize, out: &mut [u16], list: &mut [u32])
    requires { Writable l many out.old × (length list.old ≡ checks l) }
    ensures { Restored gf257 l many (parity_trays l) out.old out.new }
{
    let first = l.dimension;
    trays_from(first, list);
    batch_restore257::restore(l, many, out, list);
}

// Works out the trays after the data.
fn parity(l: Layout, many: usize, out: &mut [u16])
    requires { Writable l many out.old }
    ensures { Restored gf257 l many (parity_trays l) out.old out.new }
{
    let r = layout::check_count(l) as usize;
    let mut list = [0u32; TRAYS];
    parity_in(l, many, out, &mut list[..r]);
}

// Copies the data to the first trays.
fn put_data(given: &[u16], out: &mut [u16])
    requires { length given.now ≤ length out.old }
    ensures { Run (copied given.now 0) out.old out.new 0 (length given.now) }
{
    kernel::copy(out, 0, given.len(), given, 0);
}

// Writes the codewords of so many data, or refuses and writes nothing.
pub fn store_batch(l: Layout, many: usize, given: &[u16], out: &mut [u16]) -> u8
    ensures { BatchStoreAnswer gf257 l many given.now out.old out.new result }
{
    let ground = refusal(l, many, given, out.len());
    if ground != 0 {
        return ground;
    }
    put_data(given, out);
    parity(l, many, out);
    0
}
