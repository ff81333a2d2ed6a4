// Made by tools/twin.py from crates/gather/src/lib.rt.
// From tray images to the buffers that the other calls take: which trays are present is decided here, by the images alone, and only symbols
// of trays that are present are handed on. A tray is present exactly when its image is live, well formed, of the layout and volume
// expected, and its own. What is gathered depends on the trays present and on nothing else (proofs/Present.antt), and recovering it gives
// back the codeword stored where at most r trays are missing (proofs/Returns.antt).
#![tactic(auto)]

pub mod rack;
pub mod states;
pub mod tray;

ghost use Rattle.std.specs.Prelude.{◌≡◌, cond, ◌+◌, ◌<◌, length, set};
ghost use Rattle.image.specs.Image.{edition2};
ghost use Rattle.gather.specs.Gathering.{gather_refusal, GatherAnswer};
ghost use Rattle.gather.specs.Inner.{Gathering, GatheredAll};

use gather::Gathered;
use image::SECOND;
use image::grounds::image_length;
use layout::Layout;

// Lists a tray that is missing.
fn note(missing: &mut [u32], count: u32, x: u32, there: bool) -> u32
    requires { (count < length missing.old) × (count < 60) }
    ensures answer { result ≡ cond there count (count + 1) }
    ensures list { missing.new ≡ cond there missing.old (set missing.old count x) }
{
    if there {
        return count;
    }
    missing[count as usize] = x;
    count + 1
}

// Takes every tray and lists those that are missing.
fn gather_all(
    l: Layout,
    volume: u32,
    images: &[u8],
    codeword: &mut [u16],
    missing: &mut [u32],
) -> u32
    requires { Gathering edition2 l images.now codeword.old missing.old }
    ensures { GatheredAll edition2 l volume images.now codeword.old missing.old codeword.new missing.new result }
{
    let n = layout::tray_count(l);
    let total = layout::layer_count(l) as usize;
    let mut count = 0u32;
    for x in 0..n {
        let there = tray::take_tray(l, volume, images, x, codeword, total);
        count = note(missing, count, x, there);
    }
    count
}

// The first ground for refusing, 0 for none, by the lengths of the buffers.
fn refusal(l: Layout, images: usize, room: usize, places: usize) -> u32
    ensures { result ≡ gather_refusal edition2 l images room places }
{
    if !layout::admitted(SECOND.order, l) {
        return 1;
    }
    let n = layout::tray_count(l) as usize;
    if images != n * image_length(SECOND, l) {
        return 2;
    }
    if room != n * layout::layer_count(l) as usize {
        return 2;
    }
    if places != n {
        return 2;
    }
    0
}

// Gathers the symbols of the trays that are present and lists those that are not, or refuses and writes nothing.
pub fn gather(
    l: Layout,
    volume: u32,
    images: &[u8],
    codeword: &mut [u16],
    missing: &mut [u32],
) -> Gathered
    ensures { GatherAnswer edition2 l volume images.now codeword.old missing.old codeword.new missing.new result }
{
    let ground = refusal(l, images.len(), codeword.len(), missing.len());
    if ground != 0 {
        return Gathered {
            refusal: ground,
            count: 0,
        };
    }
    let count = gather_all(l, volume, images, codeword, missing);
    Gathered {
        refusal: 0,
        count: count,
    }
}
