// Made by tools/twin.py from crates/batch_share/src/lib.rt.
// A helper's shares of many codewords of one layout at once, interleaved (crate batch_parts). The layers of s^h consecutive groups with the same digit are consecutive, so with
// m codewords they are one run of m·s^h symbols, and the runs are added as those of one codeword are (crate share). Promises, for every layout, number of codewords, racks and
// buffers, the first ground of refusal that applies and no symbol changed; or of each codeword the share that document 01's call makes.
#![tactic(auto)]

ghost use Rattle.std.specs.Prelude.{◌≡◌, ℕ, ◌<◌, length};
ghost use Rattle.symbol257.specs.Elem.{gf257};
ghost use Rattle.share.specs.Inner.{RunsOf};
ghost use Rattle.batch_share.specs.ShareBatch.{share_batch_refusal, ShareBatchAnswer};
ghost use Rattle.batch_share.specs.Inner.{Gathering, Feeding, Fed, Shared};

use layout::{Layout, Rack};
use share257::HostRuns;
use symbol257::plain::ORDER;

// The first ground for refusing, 0 for none.
fn refusal(l: Layout, many: usize, host: u32, helper: u32, rack: &[u16], room: usize) -> u8
    ensures { result ≡ share_batch_refusal gf257 l many host helper rack.now room }
{
    let b = l.racks;
    let u = l.size as usize;
    if !layout::admitted(ORDER as u32, l) {
        return 1;
    }
    let total = layout::layer_count(l) as usize;
    let groups = layout::group_count(l) as usize;
    if !batch_parts::is_times(rack.len(), u * total, many) {
        return 2;
    }
    if !batch_parts::is_times(room, groups, many) {
        return 2;
    }
    if b <= host {
        return 3;
    }
    if b <= helper {
        return 3;
    }
    if !range::are_symbols(rack, 0, rack.len()) {
        return 3;
    }
    if host == helper {
        return 6;
    }
    0
}

// Adds what m trays from place g on give to the shares.
fn feed(l: Layout, h: u32, r: HostRuns, many: usize, rack: &[u16], g: u32, m: u32, out: &mut [u16])
    requires { Feeding gf257 l h many rack.now g m out.old × RunsOf l h r.digits r.length r.count r.layers }
    ensures { Fed gf257 l h many rack.now g m out.old out.new }
{
    let s = r.digits;
    let run = r.length;
    let count = r.count;
    let far = r.layers * many;
    share257::add_long(
        s,
        run * many,
        count,
        rack,
        g as usize * far,
        far,
        m as usize,
        out,
    );
}

// Clears the shares and feeds the trays of the helper's rack.
fn gather(l: Layout, h: u32, many: usize, rack: &[u16], out: &mut [u16])
    requires { Gathering gf257 l h many rack.now out.old }
    ensures { Shared gf257 l h many rack.now out.old out.new }
{
    let u = l.size;
    let n = share257::counts_of(l);
    let r = share257::runs_of(l, n, h);
    kernel::fill(out, 0, out.len(), 0);
    let mut g = 0u32;
    // Stays a `while`: a step is the number of trays that are added at once, which `share257::at_once` chooses.
    while g < u {
        let m = share257::at_once(u - g);
        feed(l, h, r, many, rack, g, m, out);
        g += m;
    }
}

// Writes the helper's shares of so many codewords for the host, worked out from the helper's racks, or refuses and writes nothing. Answers the ground, 0 for done.
pub fn share_batch(
    l: Layout,
    many: usize,
    host: Rack,
    helper: Rack,
    rack: &[u16],
    out: &mut [u16],
) -> u8
    ensures { ShareBatchAnswer gf257 l many host.0 helper.0 rack.now out.old out.new result }
{
    let h = host.number();
    let i = helper.number();
    let ground = refusal(l, many, h, i, rack, out.len());
    if ground != 0 {
        return ground;
    }
    if many == 0 {
        return 0;
    }
    gather(l, h, many, rack, out);
    0
}
