// Made by tools/twin.py from crates/gather/src/rack.rt.
// The images of one rack, for a repair: every tray that is not lost must be present.
ghost use Rattle.std.specs.Prelude.{◌≡◌, ◌+◌, ◌*◌, ◌<◌, length};
ghost use Rattle.image.specs.Image.{edition2};
ghost use Rattle.gather.specs.Gathering.{of_rack, rack_refusal, rack_buffer};
ghost use Rattle.gather.specs.Inner.{Place, PlaceRead, looked_ground, lower_of, Lowest, RackRead, RackRoom, PlaceTaken, RackTaken};

use image::SECOND;
use image::grounds::image_length;
use layout::{Layout, Rack};

// Whether every tray listed stands in the rack.
fn of_rack(u: u32, rack: u32, lost: &[u32]) -> bool
    requires { 0 < u }
    ensures { result ≡ of_rack u rack lost.now }
{
    for x in lost {
        if *x / u != rack {
            return false;
        }
    }
    true
}

// Why the image at a place is not taken for tray x, 0 for no ground and for a lost tray.
fn looked_ground(l: Layout, volume: u32, lost: &[u32], images: &[u8], place: u32, x: u32) -> u32
    requires { PlaceRead edition2 l place images.now }
    ensures { result ≡ looked_ground edition2 l volume lost.now images.now place x }
{
    if !lists::is_absent(lost, x) {
        return 0;
    }
    crate::tray::tray_ground(l, volume, images, place, x)
}

// The lower of two grounds, where 0 is none.
fn lower(a: u32, b: u32) -> u32
    ensures { result ≡ lower_of a b }
{
    if a == 0 {
        return b;
    }
    if b == 0 {
        return a;
    }
    if b < a {
        return b;
    }
    a
}

// The lowest ground of the images looked at, 0 for none.
fn lowest_ground(l: Layout, volume: u32, rack: u32, lost: &[u32], images: &[u8]) -> u32
    requires { RackRead edition2 l rack images.now }
    ensures { Lowest edition2 l volume rack lost.now images.now l.size result }
{
    let u = l.size;
    let first = rack * u;
    let mut lowest = 0u32;
    for g in 0..u {
        let ground = looked_ground(l, volume, lost, images, g, first + g);
        lowest = lower(lowest, ground);
    }
    lowest
}

// The first ground for refusing, 0 for none.
fn refusal(l: Layout, volume: u32, rack: u32, lost: &[u32], images: &[u8], room: usize) -> u8
    ensures { result ≡ rack_refusal edition2 l volume rack lost.now images.now room }
{
    let b = l.racks;
    let u = l.size;
    if !layout::admitted(SECOND.order, l) {
        return 1;
    }
    if images.len() != u as usize * image_length(SECOND, l) {
        return 2;
    }
    if room != u as usize * layout::layer_count(l) as usize {
        return 2;
    }
    if b <= rack {
        return 3;
    }
    if !of_rack(u, rack, lost) {
        return 3;
    }
    if !lists::strictly_rising(lost) {
        return 4;
    }
    lowest_ground(l, volume, rack, lost, images) as u8
}

// Takes tray x at a place, unless it is lost.
fn take_place(
    l: Layout,
    lost: &[u32],
    images: &[u8],
    place: u32,
    x: u32,
    out: &mut [u16],
    total: usize,
)
    requires { Place edition2 l total place images.now out.old }
    ensures { PlaceTaken edition2 l lost.now images.now place x out.old out.new }
{
    if !lists::is_absent(lost, x) {
        return;
    }
    crate::tray::copy_tray(l, images, place, out, total);
}

// Takes the trays that are not lost.
fn take_rack(l: Layout, rack: u32, lost: &[u32], images: &[u8], out: &mut [u16])
    requires { RackRoom edition2 l rack images.now out.old }
    ensures { RackTaken edition2 l rack lost.now images.now out.old out.new l.size }
{
    let u = l.size;
    let first = rack * u;
    let total = layout::layer_count(l) as usize;
    for g in 0..u {
        take_place(l, lost, images, g, first + g, out, total);
    }
}

// Gathers the symbols of a rack's trays that are not lost, or refuses and writes nothing.
pub fn gather_rack(
    l: Layout,
    volume: u32,
    rack: Rack,
    lost: &[u32],
    images: &[u8],
    out: &mut [u16],
) -> u8
    ensures answer { result ≡ rack_refusal edition2 l volume rack.0 lost.now images.now (length out.old) }
    ensures buffer { out.new ≡ rack_buffer edition2 l volume rack.0 lost.now images.now out.old }
{
    let i = rack.number();
    let ground = refusal(l, volume, i, lost, images, out.len());
    if ground != 0 {
        return ground;
    }
    take_rack(l, i, lost, images, out);
    0
}
