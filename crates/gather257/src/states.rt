// Made by tools/twin.py from crates/gather/src/states.rt.
// The states of all trays, as the loss margin counts them.
ghost use Rattle.std.specs.Prelude.{◌≡◌, length};
ghost use Rattle.lists.specs.Lists.{table};
ghost use Rattle.layout.specs.Layout.{trays};
ghost use Rattle.image.specs.Image.{edition2};
ghost use Rattle.gather.specs.Gathering.{tray_state, states_refusal, states_buffer};
ghost use Rattle.gather.specs.Inner.{PlaceRead, Stating};

use image::SECOND;
use image::grounds::image_length;
use layout::Layout;

// The state of tray x.
fn tray_state(l: Layout, volume: u32, images: &[u8], x: u32) -> u8
    requires { PlaceRead edition2 l x images.now }
    ensures { result ≡ tray_state edition2 l volume images.now x }
{
    let ground = crate::tray::tray_ground(l, volume, images, x, x);
    if ground == 0 {
        return 1;
    }
    if ground == 10 {
        return 2;
    }
    0
}

// Writes the state of every tray.
fn write_states(l: Layout, volume: u32, images: &[u8], states: &mut [u8])
    requires { Stating edition2 l images.now states.old }
    ensures { states.new ≡ table (tray_state edition2 l volume images.now) (trays l) }
{
    let n = layout::tray_count(l);
    for x in 0..n {
        states[x as usize] = tray_state(l, volume, images, x);
    }
}

// The first ground for refusing, 0 for none, by the lengths of the buffers.
fn refusal(l: Layout, images: usize, room: usize) -> u8
    ensures { result ≡ states_refusal edition2 l images room }
{
    if !layout::admitted(SECOND.order, l) {
        return 1;
    }
    let n = layout::tray_count(l) as usize;
    if images != n * image_length(SECOND, l) {
        return 2;
    }
    if room != n {
        return 2;
    }
    0
}

// Writes the state of every tray, or refuses and writes nothing.
pub fn states(l: Layout, volume: u32, images: &[u8], states: &mut [u8]) -> u8
    ensures answer { result ≡ states_refusal edition2 l (length images.now) (length states.old) }
    ensures buffer { states.new ≡ states_buffer edition2 l volume images.now states.old }
{
    let ground = refusal(l, images.len(), states.len());
    if ground != 0 {
        return ground;
    }
    write_states(l, volume, images, states);
    0
}
