// Storing. Promises that the buffer becomes the only codeword whose first k trays are the data, whatever it held before; a layout or length that does not
// fit is refused and no symbol changes.
#![tactic(auto)]

ghost use Rattle.std.specs.Prelude.{◌≡◌, ◌+◌, ◌≤◌, length};
ghost use Rattle.lists.specs.Lists.{table};
ghost use Rattle.symbol.specs.Elem.{gf256};
ghost use Rattle.layout.specs.Layout.{checks, layers, tray_limit};
ghost use Rattle.kernel.specs.Inner.{Run, copied};
ghost use Rattle.restore.specs.Inner.{RestoredTo};
ghost use Rattle.store.specs.Store.{store_refusal, StoreAnswer};
ghost use Rattle.store.specs.Inner.{parity_trays, Writable};

use layout::Layout;
use symbol::plain::ORDER;

// The most trays of a cabinet, for the list of those that are worked out.
const TRAYS: usize = layout::TRAYS as usize;

// The first ground for refusing, 0 for none.
fn refusal(l: Layout, given: &[u8], room: usize) -> u8
    ensures { result ≡ store_refusal gf256 l given.now room }
{
    let k = l.dimension;
    if !layout::admitted(ORDER as u32, l) {
        return 1;
    }
    let total = layout::layer_count(l) as usize;
    if given.len() != k as usize * total {
        return 2;
    }
    if room != layout::tray_count(l) as usize * total {
        return 2;
    }
    if !range::are_symbols(given, 0, given.len()) {
        return 3;
    }
    0
}

// Lists the trays first, first + 1, and so on.
fn count_from(first: u32, list: &mut [u32])
    requires { (first ≤ tray_limit) × (length list.old ≤ tray_limit) }
    ensures { list.new ≡ table (λ i. first + i) (length list.old) }
{
    for (i, tray) in list.iter_mut().enumerate() {
        *tray = first + i as u32;
    }
}

// Works out the trays after the data, with room for their list.
fn parity_in(l: Layout, out: &mut [u8], list: &mut [u32])
    requires { Writable l out.old × (length list.old ≡ checks l) }
    ensures { RestoredTo gf256 l (parity_trays l) out.old (layers l) out.new }
{
    let first = l.dimension;
    count_from(first, list);
    restore::restore(l, layout::layer_count(l), out, list);
}

// Works out the trays after the data.
fn parity(l: Layout, out: &mut [u8])
    requires { Writable l out.old }
    ensures { RestoredTo gf256 l (parity_trays l) out.old (layers l) out.new }
{
    let r = layout::check_count(l) as usize;
    let mut list = [0u32; TRAYS];
    parity_in(l, out, &mut list[..r]);
}

// Copies the data to the first trays.
fn put_data(given: &[u8], out: &mut [u8])
    requires { length given.now ≤ length out.old }
    ensures { Run (copied given.now 0) out.old out.new 0 (length given.now) }
{
    kernel::copy(out, 0, given.len(), given, 0);
}

// Writes the codeword of the data, or refuses and writes nothing.
pub fn store(l: Layout, given: &[u8], out: &mut [u8]) -> u8
    ensures { StoreAnswer gf256 l given.now out.old out.new result }
{
    let ground = refusal(l, given, out.len());
    if ground != 0 {
        return ground;
    }
    put_data(given, out);
    parity(l, out);
    0
}
