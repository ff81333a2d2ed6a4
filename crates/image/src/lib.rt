// Tray images: document 01's header of 24 bytes, then the symbols. A write makes the whole image, or refuses and writes nothing. A read takes bytes of
// any length and content and hands out the tray and the symbols of a live, well-formed image of the layout and volume expected, and of no other: no
// demonstration image passes for a live one (proofs/LiveOnly.antt). Here are what the images of every field share, and the calls for the field of 256.
#![tactic(auto)]

pub mod grounds;
pub mod header;

ghost use Rattle.std.specs.Prelude.{◌≡◌, true, [], ◌+◌, ◌*◌, ◌≤◌, length};
ghost use Rattle.lists.specs.Lists.{table, all_below};
ghost use Rattle.layout.specs.Layout.{layers};
ghost use Rattle.image.specs.Image.{edition1, header_length, symbol_bytes, symbol_at, write_refusal, write_buffer, well_formed, read_refusal, read_tray, read_symbols};

use grounds::{formed_refusal, header_formed, write_refusal};
use header::{byte_at, head, own_layout};
use layout::{Layout, Tray};

// What the images of a field have of their own: the number of their edition, the order of the field's root, how many symbols it has, and the bytes that one takes.
#[derive(Clone, Copy)]
pub struct Edition {
    pub number: u32,
    pub order: u32,
    pub size: u32,
    pub width: u32,
}

// Images over the field of 256, and over the whole numbers modulo 257.
pub const FIRST: Edition = Edition {
    number: 1,
    order: 255,
    size: 256,
    width: 1,
};

pub const SECOND: Edition = Edition {
    number: 2,
    order: 256,
    size: 257,
    width: 2,
};

// The length of the header, which is where the symbols start.
pub const HEADER: usize = 24;

// The states of an image.
pub const LIVE: u32 = 1;

pub const DEMONSTRATION: u32 = 2;

// Whether numbers are symbols.
fn all_symbols(xs: &[u8]) -> bool
    ensures { result ≡ all_below xs.now edition1.size }
{
    range::are_symbols(xs, 0, xs.len())
}

// Writes the bytes of symbols.
fn write_symbols(symbols: &[u8], out: &mut [u8])
    requires { (length out.old ≡ edition1.width * length symbols.now) × (all_below symbols.now edition1.size ≡ true) }
    ensures { out.new ≡ symbol_bytes edition1.width symbols.now }
{
    lists::copy_bytes(symbols, out);
}

// Writes the image of a tray.
pub fn write(l: Layout, tray: Tray, state: u32, volume: u32, symbols: &[u8], image: &mut [u8]) -> u8
    ensures answer { result ≡ write_refusal edition1 l tray.0 state volume symbols.now (length image.old) }
    ensures buffer { image.new ≡ write_buffer edition1 l tray.0 state volume symbols.now image.old }
{
    let ok = all_symbols(symbols);
    let refusal = write_refusal(
        FIRST,
        l,
        tray,
        state,
        volume,
        symbols.len(),
        ok,
        image.len(),
    );
    if refusal != 0 {
        return refusal;
    }
    let h = head(FIRST, l, tray, state, volume);
    lists::copy_bytes(&h, image);
    write_symbols(symbols, &mut image[HEADER..]);
    0
}

// Whether an image is well formed.
fn well_formed(image: &[u8]) -> bool
    ensures { result ≡ well_formed edition1 image.now }
{
    if !header_formed(FIRST, image) {
        return false;
    }
    let total = layout::layer_count(own_layout(image)) as usize;
    range::are_symbols(image, HEADER, total)
}

// The refusal of a read, 0 for none.
pub fn read_refusal(l: Layout, volume: u32, image: &[u8]) -> u8
    ensures { result ≡ read_refusal edition1 l volume (layers l) image.now }
{
    if !layout::admitted(FIRST.order, l) {
        return 1;
    }
    if !well_formed(image) {
        return 9;
    }
    formed_refusal(l, volume, image)
}

// Copies as many symbols of an image as there are places.
pub fn copy_symbols(image: &[u8], places: &mut [u8])
    requires { header_length + edition1.width * length places.old ≤ length image.now }
    ensures { places.new ≡ table (symbol_at edition1 image.now) (length places.old) }
{
    let count = places.len();
    kernel::copy(places, 0, count, image, HEADER);
}

// Reads a live image of the layout and volume expected: gives its symbols, and writes the refusal's number and the tray's.
pub fn read<'a>(
    l: Layout,
    volume: u32,
    image: &'a [u8],
    number: &mut u32,
    tray: &mut u32,
) -> &'a [u8]
    ensures part { result.now ≡ read_symbols edition1 l volume (layers l) [] image.now }
    ensures number { number.new ≡ read_refusal edition1 l volume (layers l) image.now }
    ensures tray { tray.new ≡ read_tray edition1 l volume (layers l) image.now }
{
    let refusal = read_refusal(l, volume, image);
    *number = refusal as u32;
    if refusal != 0 {
        *tray = 0;
        return &image[..0];
    }
    *tray = byte_at(image, 8);
    &image[HEADER..]
}
