// What a piece of a repair looks at: the symbols of its own groups, in the shares and in the host rack's sound trays. Promises whether all of them are symbols
// (specs/Seen.antt). The groups lie in blocks of s^h, h the host rack; the layers of a part of a block are a run for each digit, those of whole blocks are one run.
#![tactic(auto)]

ghost use Rattle.std.specs.Prelude.{◌≡◌, true, ◌+◌, ◌*◌, ◌%◌, ◌<◌, ◌≤◌, length};
ghost use Rattle.lists.specs.Lists.{all, all_below};
ghost use Rattle.layout.specs.Layout.{trays, layers, traffic, Cabinet};
ghost use Rattle.seen.specs.Seen.{sound_symbols, piece_symbols};
ghost use Rattle.seen.specs.Inner.{group_symbols, tray_symbols, Places, Looking};

use field::FieldNumber;
use layout::Layout;

// Whether a tray's numbers of w groups from p on, all of one block, are symbols; the tray begins at the place `at`.
fn part_symbols<N: FieldNumber>(
    host: &[N],
    at: usize,
    s: usize,
    unit: usize,
    p: usize,
    w: usize,
) -> bool
    requires { Places host.now at s unit (p + w) × (p % unit + w ≤ unit) }
    ensures { result ≡ group_symbols N.field (N.codes host.now) at s unit p w }
{
    if w == 0 {
        return true;
    }
    let low = p % unit;
    let block = p / unit * s;
    for a in 0..s {
        if !range::are_symbols(host, at + (block + a) * unit + low, w) {
            return false;
        }
    }
    true
}

// The same for any groups: a part of a block, whole blocks, and a part of a block.
fn groups_symbols<N: FieldNumber>(
    host: &[N],
    at: usize,
    s: usize,
    unit: usize,
    first: usize,
    count: usize,
) -> bool
    requires { Places host.now at s unit (first + count) }
    ensures { result ≡ group_symbols N.field (N.codes host.now) at s unit first count }
{
    let low = first % unit;
    if low + count <= unit {
        return part_symbols(host, at, s, unit, first, count);
    }
    if !part_symbols(host, at, s, unit, first, unit - low) {
        return false;
    }
    let next = first + (unit - low);
    let rest = (first + count) % unit;
    let last = first + count - rest;
    if !range::are_symbols(host, at + next * s, last * s - next * s) {
        return false;
    }
    part_symbols(host, at, s, unit, last, rest)
}

// Whether a tray is listed, or its numbers of these groups are symbols.
pub fn tray_symbols<N: FieldNumber>(
    lost: &[u32],
    tray: u32,
    host: &[N],
    at: usize,
    s: usize,
    unit: usize,
    first: usize,
    count: usize,
) -> bool
    requires { Places host.now at s unit (first + count) }
    ensures { result ≡ tray_symbols N.field lost.now tray (N.codes host.now) at s unit first count }
{
    if !lists::is_absent(lost, tray) {
        return true;
    }
    groups_symbols(host, at, s, unit, first, count)
}

// Tray after tray.
fn host_symbols<N: FieldNumber>(
    l: Layout,
    lost: &[u32],
    h: u32,
    host: &[N],
    first: usize,
    count: usize,
) -> bool
    requires { Looking l h host.now first count }
    ensures { result ≡ all (sound_symbols N.field l lost.now h (N.codes host.now) first count) l.size }
{
    let u = l.size;
    let total = layout::layer_count(l) as usize;
    let s = layout::digit_count(l) as usize;
    let unit = blocks::block_width(l, h);
    for g in 0..u {
        if !tray_symbols(
            lost,
            h * u + g,
            host,
            g as usize * total,
            s,
            unit,
            first,
            count,
        ) {
            return false;
        }
    }
    true
}

// Whether what a call looks at are symbols.
pub fn piece_symbols<N: FieldNumber>(
    l: Layout,
    lost: &[u32],
    shares: &[N],
    host: &[N],
    first: u64,
    budget: u64,
) -> bool
    requires { Cabinet l × (all_below lost.now (trays l) ≡ true) × (length shares.now ≡ length lost.now * traffic l) × (length host.now ≡ l.size * layers l) }
    ensures { result ≡ piece_symbols N.field l lost.now (N.codes shares.now) (N.codes host.now) first budget }
{
    let u = l.size;
    let d = l.helpers as usize;
    let e = lost.len();
    if e == 0 {
        return true;
    }
    let total = layout::group_count(l);
    if total as u64 <= first {
        return true;
    }
    let count = budget.min(total as u64 - first);
    if !range::rows_are_symbols(
        shares,
        e * d,
        total as usize,
        first as usize,
        count as usize,
    ) {
        return false;
    }
    host_symbols(l, lost, lost[0] / u, host, first as usize, count as usize)
}
