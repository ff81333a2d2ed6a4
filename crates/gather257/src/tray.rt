// Made by tools/twin.py from crates/gather/src/tray.rt.
// One of several images that lie one after the other: why it is not taken, and its symbols.
ghost use Rattle.std.specs.Prelude.{◌≡◌, ◌+◌, ◌*◌, ◌≤◌, length};
ghost use Rattle.kernel.specs.Inner.{Run};
ghost use Rattle.image.specs.Image.{edition2, header_length, symbol_at};
ghost use Rattle.gather.specs.Gathering.{image_of, image_ground, present, shown_symbol};
ghost use Rattle.gather.specs.Inner.{Place, PlaceRead};

use image::SECOND;
use image::grounds::image_length;
use image::header::byte_at;
use layout::Layout;

// Why an image is not taken for tray x, 0 for no ground.
fn image_ground(l: Layout, volume: u32, image: &[u8], x: u32) -> u32
    ensures { result ≡ image_ground edition2 l volume x image.now }
{
    let number = image257::read_refusal(l, volume, image);
    if number != 0 {
        return number as u32;
    }
    if byte_at(image, 8) != x {
        return 11;
    }
    0
}

// Why the image at a place is not taken for tray x, 0 for no ground.
pub fn tray_ground(l: Layout, volume: u32, images: &[u8], place: u32, x: u32) -> u32
    requires { PlaceRead edition2 l place images.now }
    ensures { result ≡ image_ground edition2 l volume x (image_of edition2 l images.now place) }
{
    let size = image_length(SECOND, l);
    let from = place as usize * size;
    image_ground(l, volume, &images[from..from + size], x)
}

// Copies the symbols of an image to a part of the room.
fn copy_part(image: &[u8], out: &mut [u16], to: usize, total: usize)
    requires { (header_length + edition2.width * total ≤ length image.now) × (to + total ≤ length out.old) }
    ensures { Run (symbol_at edition2 image.now) out.old out.new to total }
{
    image257::copy_symbols(image, &mut out[to..to + total]);
}

// Copies the symbols of the image at a place to the same place of the room.
pub fn copy_tray(l: Layout, images: &[u8], place: u32, out: &mut [u16], total: usize)
    requires { Place edition2 l total place images.now out.old }
    ensures { Run (symbol_at edition2 (image_of edition2 l images.now place)) out.old out.new (place * total) total }
{
    let size = image_length(SECOND, l);
    let from = place as usize * size;
    copy_part(
        &images[from..from + size],
        out,
        place as usize * total,
        total,
    );
}

// Writes the symbols of tray x where it is present, or zeros where it is not, and answers which.
pub fn take_tray(
    l: Layout,
    volume: u32,
    images: &[u8],
    x: u32,
    out: &mut [u16],
    total: usize,
) -> bool
    requires { Place edition2 l total x images.now out.old }
    ensures answer { result ≡ present edition2 l volume images.now x }
    ensures run { Run (shown_symbol edition2 l volume images.now x) out.old out.new (x * total) total }
{
    if tray_ground(l, volume, images, x, x) != 0 {
        kernel::fill(out, x as usize * total, total, 0);
        return false;
    }
    copy_tray(l, images, x, out, total);
    true
}
