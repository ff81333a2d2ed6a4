// Tray images of the second field (document 02, W10): edition 2, two bytes a symbol, low byte first. The definitions, the header and the claims over both
// editions are in the crate image. A read copies the symbols to lent places, and leaves these as they were where it refuses.
#![tactic(auto)]

ghost use Rattle.std.specs.Prelude.{◌≡◌, ◌+◌, ◌*◌, ◌/◌, ◌%◌, ◌<◌, ◌≤◌, length, set};
ghost use Rattle.lists.specs.Lists.{table, all_below};
ghost use Rattle.layout.specs.Layout.{layers};
ghost use Rattle.image.specs.Image.{edition2, header_length, symbol_bytes, symbol_at, write_refusal, write_buffer, well_formed, read_refusal, read_tray, read_symbols};
ghost use Rattle.image.specs.Inner.{symbols_held};

use image::grounds::{formed_refusal, header_formed, write_refusal};
use image::header::{byte_at, head, own_layout};
use image::{HEADER, SECOND};
use layout::{Layout, Tray};

// What a read answers: the refusal's number, 0 for none, and the tray's.
#[repr(C)]
#[derive(Drop)]
pub struct Answer {
    pub refusal: u32,
    pub tray: u32,
}

// Whether numbers are symbols.
fn all_symbols(xs: &[u16]) -> bool
    ensures { result ≡ all_below xs.now edition2.size }
{
    range::are_symbols(xs, 0, xs.len())
}

// Writes a number in two bytes, low byte first.
fn put(out: &mut [u8], at: usize, x: u16)
    requires { at + 1 < length out.old }
    ensures { out.new ≡ set (set out.old at (x % 256)) (at + 1) (x / 256 % 256) }
{
    out[at] = (x % 256) as u8;
    out[at + 1] = (x / 256 % 256) as u8;
}

// Writes the bytes of symbols.
fn write_symbols(symbols: &[u16], out: &mut [u8])
    requires { length out.old ≡ edition2.width * length symbols.now }
    ensures { out.new ≡ symbol_bytes edition2.width symbols.now }
{
    for (j, symbol) in symbols.iter().enumerate() {
        put(out, 2 * j, *symbol);
    }
}

// Writes the image of a tray.
pub fn write(
    l: Layout,
    tray: Tray,
    state: u32,
    volume: u32,
    symbols: &[u16],
    image: &mut [u8],
) -> u8
    ensures answer { result ≡ write_refusal edition2 l tray.0 state volume symbols.now (length image.old) }
    ensures buffer { image.new ≡ write_buffer edition2 l tray.0 state volume symbols.now image.old }
{
    let ok = all_symbols(symbols);
    let refusal = write_refusal(
        SECOND,
        l,
        tray,
        state,
        volume,
        symbols.len(),
        ok,
        image.len(),
    );
    if refusal != 0 {
        return refusal;
    }
    let h = head(SECOND, l, tray, state, volume);
    lists::copy_bytes(&h, image);
    write_symbols(symbols, &mut image[HEADER..]);
    0
}

// A symbol of an image.
fn symbol_at(image: &[u8], j: usize) -> u16
    requires { header_length + edition2.width * j + 1 < length image.now }
    ensures { result ≡ symbol_at edition2 image.now j }
{
    let at = HEADER + 2 * j;
    let low = byte_at(image, at);
    let high = byte_at(image, at + 1);
    (low + 256 * high) as u16
}

// Whether the numbers of an image are symbols.
fn symbols_held(image: &[u8], total: usize) -> bool
    requires { header_length + edition2.width * total ≤ length image.now }
    ensures { result ≡ symbols_held edition2 image.now total }
{
    for j in 0..total {
        if SECOND.size <= symbol_at(image, j) as u32 {
            return false;
        }
    }
    true
}

// Whether an image is well formed.
fn well_formed(image: &[u8]) -> bool
    ensures { result ≡ well_formed edition2 image.now }
{
    if !header_formed(SECOND, image) {
        return false;
    }
    let total = layout::layer_count(own_layout(image)) as usize;
    symbols_held(image, total)
}

// The refusal of a read, 0 for none, where so many places are lent for the symbols.
fn places_refusal(l: Layout, volume: u32, places: usize, image: &[u8]) -> u8
    ensures { result ≡ read_refusal edition2 l volume places image.now }
{
    if !layout::admitted(SECOND.order, l) {
        return 1;
    }
    if places != layout::layer_count(l) as usize {
        return 2;
    }
    if !well_formed(image) {
        return 9;
    }
    formed_refusal(l, volume, image)
}

// The refusal of a read, 0 for none, where there are the places that there must be.
pub fn read_refusal(l: Layout, volume: u32, image: &[u8]) -> u8
    ensures { result ≡ read_refusal edition2 l volume (layers l) image.now }
{
    if !layout::admitted(SECOND.order, l) {
        return 1;
    }
    places_refusal(l, volume, layout::layer_count(l) as usize, image)
}

// Copies as many symbols of an image as there are places.
pub fn copy_symbols(image: &[u8], places: &mut [u16])
    requires { header_length + edition2.width * length places.old ≤ length image.now }
    ensures { places.new ≡ table (symbol_at edition2 image.now) (length places.old) }
{
    for (j, place) in places.iter_mut().enumerate() {
        *place = symbol_at(image, j);
    }
}

// Reads a live image of the layout and volume expected: copies its symbols to the places, and gives the tray.
pub fn read(l: Layout, volume: u32, image: &[u8], places: &mut [u16]) -> Answer
    ensures refusal { result.refusal ≡ read_refusal edition2 l volume (length places.old) image.now }
    ensures tray { result.tray ≡ read_tray edition2 l volume (length places.old) image.now }
    ensures symbols { places.new ≡ read_symbols edition2 l volume (length places.old) places.old image.now }
{
    let number = places_refusal(l, volume, places.len(), image);
    if number != 0 {
        return Answer {
            refusal: number as u32,
            tray: 0,
        };
    }
    copy_symbols(image, places);
    Answer {
        refusal: 0,
        tray: byte_at(image, 8),
    }
}
