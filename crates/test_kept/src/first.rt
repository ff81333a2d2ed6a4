// The first layer that does not fit: first the first block of layers that does not, as wide as the room allows, then the first part of
// that block, and so on by powers of the
// digits' base down to one layer.
ghost use Rattle.std.specs.Prelude.{ℕ, ◌+◌, ◌*◌, ◌^◌, ◌<◌, ◌≤◌};
ghost use Rattle.symbol.specs.Elem.{gf256};
ghost use Rattle.layout.specs.Layout.{checks, digits, layers};
ghost use Rattle.blocks.specs.Inner.{block_limit, room_limit};
ghost use Rattle.restore.specs.Inner.{LayerFits, Says, Erasing, BlockFits};
ghost use Rattle.test_kept.specs.Inner.{Wide, Stretch, SomeUnfit, FirstUnfit, BadBlock, FirstLayer};

use layout::Layout;

// Whether a block fits, with room to work in.
fn fits(l: Layout, total: u32, e: u32, w: usize, first: usize, c: &[u8], es: &[u32]) -> bool
    requires { Wide l e w first × Erasing l total es.now c.now }
    ensures { Says result (BlockFits gf256 l w first es.now c.now) }
{
    let mut sums = [0u8; blocks::ROOM];
    let mut found = [0u8; blocks::ROOM];
    let mut points = [0u8; blocks::ROOM];
    let mut coefs = [0u8; blocks::ROOM];
    let mut row = [0u8; blocks::BLOCK];
    let mut cur = [0u8; blocks::BLOCK];
    restore::block_fits(
        c,
        l,
        total as usize,
        e,
        w,
        first,
        es,
        &mut sums,
        &mut found,
        &mut points,
        &mut coefs,
        &mut row,
        &mut cur,
    )
}

// The first layer of the first block that does not fit, of some blocks of w layers from a layer on that do not all fit.
fn bad_block(
    l: Layout,
    total: u32,
    e: u32,
    w: usize,
    from: usize,
    count: usize,
    c: &[u8],
    es: &[u32],
) -> usize
    requires { Stretch l e w from count × Erasing l total es.now c.now × SomeUnfit gf256 l w from count es.now c.now }
    ensures { FirstUnfit gf256 l w from count es.now c.now result }
{
    for q in 0..count - 1 {
        if !fits(l, total, e, w, from + q * w, c, es) {
            return from + q * w;
        }
    }
    from + (count - 1) * w
}

// The first block of e digits that does not fit.
fn bad_wide(l: Layout, total: u32, e: u32, c: &[u8], es: &[u32]) -> usize
    requires { (e ≤ l.racks) × (digits l ^ e ≤ block_limit) × (checks l * digits l ^ e ≤ room_limit) × Erasing l total es.now c.now
        × ¬ ((j : ℕ) → j < layers l → LayerFits gf256 l es.now c.now j) }
    ensures { BadBlock gf256 l e es.now c.now result }
{
    let w = blocks::block_width(l, e);
    bad_block(l, total, e, w, 0, total as usize / w, c, es)
}

// Of a block that does not fit, the first part of one digit fewer that does not.
fn bad_part(l: Layout, total: u32, e: u32, first: usize, c: &[u8], es: &[u32]) -> usize
    requires { BadBlock gf256 l (e + 1) es.now c.now first × Erasing l total es.now c.now }
    ensures { BadBlock gf256 l e es.now c.now result }
{
    let w = blocks::block_width(l, e);
    let s = layout::digit_count(l) as usize;
    bad_block(l, total, e, w, first, s, c, es)
}

// The first layer that does not fit, where there is one.
pub fn bad_layer(l: Layout, total: u32, c: &[u8], es: &[u32]) -> usize
    requires { Erasing l total es.now c.now × ¬ ((j : ℕ) → j < layers l → LayerFits gf256 l es.now c.now j) }
    ensures { FirstLayer gf256 l es.now c.now result }
{
    let wide = blocks::block_digits(l);
    let mut first = bad_wide(l, total, wide, c, es);
    for e in (0..wide).rev() {
        first = bad_part(l, total, e, first, c, es);
    }
    first
}
