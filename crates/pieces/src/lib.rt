// A piece of a repair: consecutive groups, a block at a time. A block is a power of s of groups that begins at a multiple of itself, so that the groups' points
// go through it in runs (crates sums and group). Promises that the layers of these groups in the spare are as the rule fixes them, and every other symbol as
// it was.
#![tactic(auto)]

ghost use Rattle.std.specs.Prelude.{◌+◌, ◌%◌, ◌≤◌, length};
ghost use Rattle.symbol.specs.Elem.{gf256};
ghost use Rattle.layout.specs.Layout.{Cabinet};
ghost use Rattle.rule.specs.Lost.{Piece};
ghost use Rattle.sums.specs.Inner.{Groups};
ghost use Rattle.pieces.specs.Inner.{Rows, Fitting, Spacious, Few, Piecing, Rooms};

use layout::Layout;

// The rows that a block needs: for the unknowns of its groups, and for their host sums.
fn row_count(l: Layout, e: u32) -> u32
    requires { Cabinet l × (e + l.dimension % l.size ≤ l.size) }
    ensures { Rows l e result }
{
    let host_sums = e * layout::digit_count(l);
    sums::unknown_count(l).max(host_sums)
}

// Repairs a block of groups.
fn repair_block(
    l: Layout,
    lost: &[u32],
    helpers: &[u32],
    shares: &[u8],
    host: &[u8],
    w: u32,
    first: u32,
    spare: &mut [u8],
    sums: &mut [u8],
    sides: &mut [u8],
    found: &mut [u8],
    points: &mut [u8],
    coefs: &mut [u8],
    row: &mut [u8],
    cur: &mut [u8],
)
    requires { Piecing gf256.order l lost.now helpers.now shares.now host.now first w spare.old × Groups l w first
        × Fitting l (length lost.now) w (length sums.old)
        × Rooms (length sums.old) sums.old sides.old found.old points.old coefs.old row.old cur.old }
    ensures { Piece gf256 l lost.now helpers.now shares.now host.now first w spare.old spare.new }
{
    let h = lost[0] / l.size;
    let e = lost.len() as u32;
    sums::block_sums(
        sums,
        l,
        h,
        w as usize,
        first as usize,
        helpers,
        shares,
        e,
        sides,
        found,
        points,
        coefs,
        row,
        cur,
    );
    group::repair_block(
        l, h, lost, host, w as usize, first, sums, sides, found, points, coefs, row, cur, spare,
    );
}

// Block after block.
fn repair_blocks(
    l: Layout,
    lost: &[u32],
    helpers: &[u32],
    shares: &[u8],
    host: &[u8],
    first: u32,
    count: u32,
    spare: &mut [u8],
    sums: &mut [u8],
    sides: &mut [u8],
    found: &mut [u8],
    points: &mut [u8],
    coefs: &mut [u8],
    row: &mut [u8],
    cur: &mut [u8],
)
    requires { Piecing gf256.order l lost.now helpers.now shares.now host.now first count spare.old
        × Spacious l (length lost.now) count (length sums.old)
        × Rooms (length sums.old) sums.old sides.old found.old points.old coefs.old row.old cur.old }
    ensures { Piece gf256 l lost.now helpers.now shares.now host.now first count spare.old spare.new }
{
    let rows = row_count(l, lost.len() as u32);
    let mut k = 0u32;
    // no plainer: each turn goes on by the width of its own block
    while k < count {
        let w = blocks::block_at(l, first + k, count - k, rows);
        repair_block(
            l,
            lost,
            helpers,
            shares,
            host,
            w,
            first + k,
            spare,
            sums,
            sides,
            found,
            points,
            coefs,
            row,
            cur,
        );
        k += w;
    }
}

// Repairs `count` groups from `first` on, in small rooms: clearing larger ones would take longer than the work.
fn repair_small(
    l: Layout,
    lost: &[u32],
    helpers: &[u32],
    shares: &[u8],
    host: &[u8],
    first: u32,
    count: u32,
    spare: &mut [u8],
)
    requires { Piecing gf256.order l lost.now helpers.now shares.now host.now first count spare.old × Few l (length lost.now) count }
    ensures { Piece gf256 l lost.now helpers.now shares.now host.now first count spare.old spare.new }
{
    let mut sums = [0u8; blocks::BLOCK];
    let mut sides = [0u8; blocks::BLOCK];
    let mut found = [0u8; blocks::BLOCK];
    let mut points = [0u8; blocks::BLOCK];
    let mut coefs = [0u8; blocks::BLOCK];
    let mut row = [0u8; blocks::BLOCK];
    let mut cur = [0u8; blocks::BLOCK];
    repair_blocks(
        l,
        lost,
        helpers,
        shares,
        host,
        first,
        count,
        spare,
        &mut sums,
        &mut sides,
        &mut found,
        &mut points,
        &mut coefs,
        &mut row,
        &mut cur,
    );
}

// The same in rooms for whole blocks.
fn repair_large(
    l: Layout,
    lost: &[u32],
    helpers: &[u32],
    shares: &[u8],
    host: &[u8],
    first: u32,
    count: u32,
    spare: &mut [u8],
)
    requires { Piecing gf256.order l lost.now helpers.now shares.now host.now first count spare.old }
    ensures { Piece gf256 l lost.now helpers.now shares.now host.now first count spare.old spare.new }
{
    let mut sums = [0u8; blocks::ROOM];
    let mut sides = [0u8; blocks::ROOM];
    let mut found = [0u8; blocks::ROOM];
    let mut points = [0u8; blocks::ROOM];
    let mut coefs = [0u8; blocks::ROOM];
    let mut row = [0u8; blocks::BLOCK];
    let mut cur = [0u8; blocks::BLOCK];
    repair_blocks(
        l,
        lost,
        helpers,
        shares,
        host,
        first,
        count,
        spare,
        &mut sums,
        &mut sides,
        &mut found,
        &mut points,
        &mut coefs,
        &mut row,
        &mut cur,
    );
}

// Repairs `count` groups from `first` on.
pub fn repair_groups(
    l: Layout,
    lost: &[u32],
    helpers: &[u32],
    shares: &[u8],
    host: &[u8],
    first: u32,
    count: u32,
    spare: &mut [u8],
)
    requires { Piecing gf256.order l lost.now helpers.now shares.now host.now first count spare.old }
    ensures { Piece gf256 l lost.now helpers.now shares.now host.now first count spare.old spare.new }
{
    let rows = row_count(l, lost.len() as u32);
    if rows as usize * count as usize <= blocks::BLOCK {
        repair_small(l, lost, helpers, shares, host, first, count, spare);
        return;
    }
    repair_large(l, lost, helpers, shares, host, first, count, spare);
}
