// The header of an image: its bytes, and what an image says of itself by them.
ghost use Rattle.std.specs.Prelude.{◌≡◌, ◌+◌, ◌*◌, ◌<◌, ◌≤◌, length, get_or};
ghost use Rattle.layout.specs.Layout.{Cabinet};
ghost use Rattle.image.specs.Image.{header_length, header, own_layout, own_volume, begins};

use crate::{Edition, HEADER};
use layout::{Layout, Tray};

// The header of an image: document 01's table from the top down.
pub fn head(e: Edition, l: Layout, tray: Tray, state: u32, volume: u32) -> [u8; HEADER]
    requires { Cabinet l }
    ensures { result ≡ header e l tray.0 state volume }
{
    let total = layout::layer_count(l);
    let number = e.number;
    let x = tray.number();
    [
        HEADER as u8,
        0,
        (number % 256) as u8,
        (state % 256) as u8,
        (l.racks % 256) as u8,
        (l.size % 256) as u8,
        (l.dimension % 256) as u8,
        (l.helpers % 256) as u8,
        (x % 256) as u8,
        (l.errors % 256) as u8,
        0,
        0,
        (volume % 256) as u8,
        (volume / 256 % 256) as u8,
        (volume / 256 / 256 % 256) as u8,
        (volume / 256 / 256 / 256 % 256) as u8,
        HEADER as u8,
        0,
        0,
        0,
        (total % 256) as u8,
        (total / 256 % 256) as u8,
        (total / 256 / 256 % 256) as u8,
        (total / 256 / 256 / 256 % 256) as u8,
    ]
}

// A byte of an image, as a number.
pub fn byte_at(image: &[u8], at: usize) -> u32
    requires { at < length image.now }
    ensures { (result ≡ get_or image.now at 0) × (result < 256) }
{
    image[at] as u32
}

// The layout that an image names.
pub fn own_layout(image: &[u8]) -> Layout
    requires { header_length ≤ length image.now }
    ensures { result ≡ own_layout image.now }
{
    Layout {
        racks: byte_at(image, 4),
        size: byte_at(image, 5),
        dimension: byte_at(image, 6),
        helpers: byte_at(image, 7),
        errors: byte_at(image, 9),
    }
}

// The volume that an image names.
pub fn own_volume(image: &[u8]) -> u32
    requires { header_length ≤ length image.now }
    ensures { result ≡ own_volume image.now }
{
    byte_at(image, 12)
        + 256 * (byte_at(image, 13) + 256 * (byte_at(image, 14) + 256 * byte_at(image, 15)))
}

// Whether an image begins with these bytes.
pub fn begins_with(image: &[u8], front: &[u8]) -> bool
    requires { length front.now ≤ length image.now }
    ensures { result ≡ begins image.now front.now }
{
    image.starts_with(front)
}
