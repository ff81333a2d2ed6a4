// The exports of tray images: of edition 1 for the field of 256, of edition 2 for the field modulo 257, whose symbols are copied to lent places.
ghost use Rattle.std.specs.Prelude.{◌≡◌, length};
ghost use Rattle.image.specs.Image.{edition1, edition2, write_refusal, write_buffer, read_refusal, read_tray, read_symbols};
ghost use Rattle.gesarumbo.specs.Boundary.{image_numbers};

use gesarumbo::numbers::ImageNumbers;
use image257::Answer;
use layout::Layout;

#[unsafe(no_mangle)]
pub extern "C" fn gesarumbo_write_image(
    l: Layout,
    tray: u32,
    state: u32,
    volume: u32,
    symbols: &[u8],
    image: &mut [u8],
) -> u32
    ensures answer { result ≡ write_refusal edition1 l tray state volume symbols.now (length image.old) }
    ensures buffer { image.new ≡ write_buffer edition1 l tray state volume symbols.now image.old }
{
    gesarumbo::images::gesarumbo_write_image(l, tray, state, volume, symbols, image)
}

#[unsafe(no_mangle)]
pub extern "C" fn gesarumbo257_write_image(
    l: Layout,
    tray: u32,
    state: u32,
    volume: u32,
    symbols: &[u16],
    image: &mut [u8],
) -> u32
    ensures answer { result ≡ write_refusal edition2 l tray state volume symbols.now (length image.old) }
    ensures buffer { image.new ≡ write_buffer edition2 l tray state volume symbols.now image.old }
{
    gesarumbo::images::gesarumbo257_write_image(l, tray, state, volume, symbols, image)
}

#[unsafe(no_mangle)]
pub extern "C" fn gesarumbo_read_image(l: Layout, volume: u32, image: &[u8]) -> ImageNumbers
    ensures { result ≡ image_numbers l volume image.now }
{
    gesarumbo::images::gesarumbo_read_image(l, volume, image)
}

#[unsafe(no_mangle)]
pub extern "C" fn gesarumbo257_read_image(
    l: Layout,
    volume: u32,
    image: &[u8],
    symbols: &mut [u16],
) -> Answer
    ensures refusal { result.refusal ≡ read_refusal edition2 l volume (length symbols.old) image.now }
    ensures tray { result.tray ≡ read_tray edition2 l volume (length symbols.old) image.now }
    ensures symbols { symbols.new ≡ read_symbols edition2 l volume (length symbols.old) symbols.old image.now }
{
    gesarumbo::images::gesarumbo257_read_image(l, volume, image, symbols)
}
