// Made by tools/twin.py from crates/restore/src/lib.rt.
// Erased trays worked out from the others, whole blocks of layers at a time, by the products of differences: the symbols that the checks determine, and
// whether these meet the checks that were not needed to solve. Never looks at the old symbols of the trays listed. What is promised here is what recovering
// and storing rest on (specs/Inner.antt).
#![tactic(auto)]

ghost use Rattle.std.specs.Prelude.{◌≡◌, true, false, ℕ, ◌*◌, ◌^◌, ◌<◌, ◌≤◌, length};
ghost use Rattle.symbol257.specs.Elem.{gf257};
ghost use Rattle.layout.specs.Layout.{digits, layers, Admissible};
ghost use Rattle.blocks.specs.Inner.{Block};
ghost use Rattle.syndrome.specs.Inner.{Listed, Room};
ghost use Rattle.restore.specs.Inner.{LayerFits, Says, Erasing, RestoredTo, Cells, PutBlock, BlockRestored, FoundTerms, BlockFits};
ghost use Rattle.solving.specs.Inner.{Workspace};

use layout::Layout;

// Writes them.
fn put_block(c: &mut [u16], total: usize, w: usize, first: usize, es: &[u32], found: &[u16])
    requires { Cells total w first es.now c.old found.now }
    ensures { PutBlock total w first es.now found.now c.old c.new (length es.now) }
{
    for (k, x) in es.iter().enumerate() {
        kernel::copy(c, *x as usize * total + first, w, found, k * w);
    }
}

// Solves and writes a block.
fn restore_block(
    c: &mut [u16],
    l: Layout,
    total: usize,
    e: u32,
    w: usize,
    first: usize,
    es: &[u32],
    sums: &mut [u16],
    found: &mut [u16],
    points: &mut [u16],
    coefs: &mut [u16],
    row: &mut [u16],
    cur: &mut [u16],
)
    requires { Block l w first × (e ≤ l.racks) × (w ≡ digits l ^ e) × Erasing l total es.now c.old
        × Workspace l w sums.old found.old points.old coefs.old row.old × (w ≤ length cur.old) }
    ensures { BlockRestored gf257 l w first es.now c.old c.new }
{
    syndrome::sum_kept(sums, l, w, first, es.len(), c, es, cur, row);
    solving257::solve_block(found, l, e, w, first, es, sums, points, coefs, row);
    put_block(c, total, w, first, es, found);
}

// Block after block.
fn restore_blocks(
    c: &mut [u16],
    l: Layout,
    total: usize,
    e: u32,
    es: &[u32],
    sums: &mut [u16],
    found: &mut [u16],
    points: &mut [u16],
    coefs: &mut [u16],
    row: &mut [u16],
    cur: &mut [u16],
)
    requires { (e ≤ l.racks) × Erasing l total es.now c.old × Workspace l (digits l ^ e) sums.old found.old points.old coefs.old row.old
        × (digits l ^ e ≤ length cur.old) }
    ensures { RestoredTo gf257 l es.now c.old (layers l) c.new }
{
    let w = blocks::block_width(l, e);
    for q in 0..total / w {
        restore_block(
            c,
            l,
            total,
            e,
            w,
            q * w,
            es,
            sums,
            found,
            points,
            coefs,
            row,
            cur,
        );
    }
}

// Solves and writes the trays listed, whatever the others hold.
pub fn restore(l: Layout, total: u32, c: &mut [u16], es: &[u32])
    requires { Erasing l total es.now c.old }
    ensures { RestoredTo gf257 l es.now c.old (layers l) c.new }
{
    let e = blocks::block_digits(l);
    let mut sums = [0u16; blocks::ROOM];
    let mut found = [0u16; blocks::ROOM];
    let mut points = [0u16; blocks::ROOM];
    let mut coefs = [0u16; blocks::ROOM];
    let mut row = [0u16; blocks::BLOCK];
    let mut cur = [0u16; blocks::BLOCK];
    restore_blocks(
        c,
        l,
        total as usize,
        e,
        es,
        &mut sums,
        &mut found,
        &mut points,
        &mut coefs,
        &mut row,
        &mut cur,
    );
}

// Adds what was found to the sums of the first r checks.
fn found_terms(
    sums: &mut [u16],
    l: Layout,
    w: usize,
    first: usize,
    r: usize,
    es: &[u32],
    found: &[u16],
    row: &mut [u16],
    cur: &mut [u16],
)
    requires { Block l w first × Listed l es.now × Room w r sums.old cur.old row.old × (length es.now * w ≤ length found.now) }
    ensures { FoundTerms gf257 l w first r es.now found.now sums.old sums.new (length es.now) }
{
    for (k, x) in es.iter().enumerate() {
        kernel::copy(cur, 0, w, found, k * w);
        syndrome::tray_points(row, l, w, first, *x);
        syndrome::add_terms(sums, w, r, cur, row);
    }
}

// Whether the symbols found meet all checks of a block.
pub fn block_fits(
    c: &[u16],
    l: Layout,
    total: usize,
    e: u32,
    w: usize,
    first: usize,
    es: &[u32],
    sums: &mut [u16],
    found: &mut [u16],
    points: &mut [u16],
    coefs: &mut [u16],
    row: &mut [u16],
    cur: &mut [u16],
) -> bool
    requires { Block l w first × (e ≤ l.racks) × (w ≡ digits l ^ e) × Erasing l total es.now c.now
        × Workspace l w sums.old found.old points.old coefs.old row.old × (w ≤ length cur.old) }
    ensures { Says result (BlockFits gf257 l w first es.now c.now) }
{
    let r = layout::check_count(l) as usize;
    syndrome::sum_kept(sums, l, w, first, r, c, es, cur, row);
    solving257::solve_block(found, l, e, w, first, es, sums, points, coefs, row);
    found_terms(sums, l, w, first, r, es, found, row, cur);
    kernel::all_zero(sums, r * w)
}

// Block after block.
fn blocks_fit(
    c: &[u16],
    l: Layout,
    total: usize,
    e: u32,
    es: &[u32],
    sums: &mut [u16],
    found: &mut [u16],
    points: &mut [u16],
    coefs: &mut [u16],
    row: &mut [u16],
    cur: &mut [u16],
) -> bool
    requires { (e ≤ l.racks) × Erasing l total es.now c.now × Workspace l (digits l ^ e) sums.old found.old points.old coefs.old row.old
        × (digits l ^ e ≤ length cur.old) }
    ensures { Says result ((j : ℕ) → j < layers l → LayerFits gf257 l es.now c.now j) }
{
    let w = blocks::block_width(l, e);
    for q in 0..total / w {
        if !block_fits(
            c,
            l,
            total,
            e,
            w,
            q * w,
            es,
            sums,
            found,
            points,
            coefs,
            row,
            cur,
        ) {
            return false;
        }
    }
    true
}

// The same with room to work in.
fn room_fits(l: Layout, total: u32, c: &[u16], es: &[u32]) -> bool
    requires { Erasing l total es.now c.now }
    ensures { Says result ((j : ℕ) → j < layers l → LayerFits gf257 l es.now c.now j) }
{
    let e = blocks::block_digits(l);
    let mut sums = [0u16; blocks::ROOM];
    let mut found = [0u16; blocks::ROOM];
    let mut points = [0u16; blocks::ROOM];
    let mut coefs = [0u16; blocks::ROOM];
    let mut row = [0u16; blocks::BLOCK];
    let mut cur = [0u16; blocks::BLOCK];
    blocks_fit(
        c,
        l,
        total as usize,
        e,
        es,
        &mut sums,
        &mut found,
        &mut points,
        &mut coefs,
        &mut row,
        &mut cur,
    )
}

// Whether every layer meets its checks; with as many trays listed as there are checks it does.
pub fn all_fit(l: Layout, total: u32, c: &[u16], es: &[u32]) -> bool
    requires { Erasing l total es.now c.now × Admissible gf257.order l }
    ensures { Says result ((j : ℕ) → j < layers l → LayerFits gf257 l es.now c.now j) }
{
    if es.len() == layout::check_count(l) as usize {
        return true;
    }
    room_fits(l, total, c, es)
}
