// Why a write or a read is refused, for the images of any edition.
ghost use Rattle.std.specs.Prelude.{◌≡◌, ◌≤◌, length};
ghost use Rattle.layout.specs.Layout.{Cabinet};
ghost use Rattle.image.specs.Image.{header_length, image_length, in_range, same_layout};
ghost use Rattle.image.specs.Inner.{Proper, Headed, state_allowed, volume_allowed, write_grounds, header_formed, expected, formed_refusal};

use crate::header::{begins_with, byte_at, head, own_layout, own_volume};
use crate::{DEMONSTRATION, Edition, HEADER, LIVE};
use layout::{Layout, Tray};

// The length of an image.
pub fn image_length(e: Edition, l: Layout) -> usize
    requires { Cabinet l }
    ensures { result ≡ image_length e l }
{
    let width = e.width as usize;
    HEADER + width * layout::layer_count(l) as usize
}

// Whether an image may have this state.
fn state_allowed(state: u32) -> bool
    ensures { result ≡ state_allowed state }
{
    state == LIVE || state == DEMONSTRATION
}

// Whether an image may have this volume number.
fn volume_allowed(volume: u32) -> bool
    ensures { result ≡ volume_allowed volume }
{
    volume != 0
}

// Whether this is a tray of the layout, and a state and a volume that an image may have.
fn in_range(l: Layout, tray: Tray, state: u32, volume: u32) -> bool
    requires { Cabinet l }
    ensures { result ≡ in_range l tray.0 state volume }
{
    if layout::tray_count(l) <= tray.number() {
        return false;
    }
    if !state_allowed(state) {
        return false;
    }
    volume_allowed(volume)
}

// The refusal of a write, 0 for none, where so many numbers are lent for symbols, ok says whether they are, and room bytes for the image.
pub fn write_refusal(
    e: Edition,
    l: Layout,
    tray: Tray,
    state: u32,
    volume: u32,
    count: usize,
    ok: bool,
    room: usize,
) -> u8
    requires { Proper e }
    ensures { result ≡ write_grounds e l tray.0 state volume count ok room }
{
    let order = e.order;
    if !layout::admitted(order, l) {
        return 1;
    }
    if count != layout::layer_count(l) as usize {
        return 2;
    }
    if room != image_length(e, l) {
        return 2;
    }
    if !in_range(l, tray, state, volume) {
        return 3;
    }
    if !ok {
        return 3;
    }
    0
}

// Whether the header of an image is the one of what it says of itself, past the tests of its length and layout.
fn header_kept(e: Edition, own: Layout, image: &[u8]) -> bool
    requires { Headed e own image.now }
    ensures { result ≡ header_formed e image.now }
{
    if image.len() != image_length(e, own) {
        return false;
    }
    let state = byte_at(image, 3);
    let tray = Tray::of(byte_at(image, 8));
    let volume = own_volume(image);
    if !in_range(own, tray, state, volume) {
        return false;
    }
    let h = head(e, own, tray, state, volume);
    begins_with(image, &h)
}

// Whether the header and the length of an image are well formed.
pub fn header_formed(e: Edition, image: &[u8]) -> bool
    requires { Proper e }
    ensures { result ≡ header_formed e image.now }
{
    let order = e.order;
    if image.len() < HEADER {
        return false;
    }
    let own = own_layout(image);
    if !layout::admitted(order, own) {
        return false;
    }
    header_kept(e, own, image)
}

// Whether two layouts are the same.
fn same_layout(l: Layout, m: Layout) -> bool
    ensures { result ≡ same_layout l m }
{
    l == m
}

// Whether an image is of the layout and volume expected.
fn is_expected(l: Layout, volume: u32, image: &[u8]) -> bool
    requires { header_length ≤ length image.now }
    ensures { result ≡ expected l volume image.now }
{
    if !same_layout(l, own_layout(image)) {
        return false;
    }
    volume == own_volume(image)
}

// The refusal of a well-formed image that is not a live one of the layout and volume expected, 0 for none.
pub fn formed_refusal(l: Layout, volume: u32, image: &[u8]) -> u8
    requires { header_length ≤ length image.now }
    ensures { result ≡ formed_refusal l volume image.now }
{
    if byte_at(image, 3) != LIVE {
        return 10;
    }
    if !is_expected(l, volume, image) {
        return 11;
    }
    0
}
