// The multipliers of a right card (document 02, W13), for either field: by them the symbols that d helpers send for a group give the host's rack sums. They are found
// by crate columns, a column for each helper, whose right sides are less the powers of its point. Promises the multipliers of crate card.
#![tactic(auto)]

ghost use Rattle.std.specs.Prelude.{◌≤◌, length};
ghost use Rattle.symbol.specs.Elem.{gf256};
ghost use Rattle.blocks.specs.Inner.{room_limit};
ghost use Rattle.multipliers.specs.Inner.{Grouped, Space, Rooms, HelperPoints, PowerSides, Multipliers};

use layout::Layout;

// The points of the helpers in a group.
fn helper_points(row: &mut [u8], l: Layout, h: u32, p: u32, helpers: &[u32])
    requires { Grouped l h p helpers.now × (l.helpers ≤ length row.old) }
    ensures { HelperPoints gf256 l h p helpers.now l.helpers row.new }
{
    let u = l.size;
    let j = layout::layer_of(l, h, p, 0);
    for (k, helper) in helpers.iter().enumerate() {
        let v = points::point_power(l, *helper * u, j, u);
        kernel::fill(row, k, 1, v);
    }
}

// The powers of these points, a row for each check.
fn power_sides(
    sides: &mut [u8],
    l: Layout,
    h: u32,
    p: u32,
    helpers: &[u32],
    row: &mut [u8],
    cur: &mut [u8],
)
    requires { Grouped l h p helpers.now × Space l sides.old row.old cur.old }
    ensures { PowerSides gf256 l h p helpers.now sides.new }
{
    let d = l.helpers as usize;
    let n = sums::unknown_count(l) as usize;
    helper_points(row, l, h, p, helpers);
    kernel::fill(cur, 0, d, 1);
    kernel::fill(sides, 0, n * d, 0);
    syndrome::add_terms(sides, d, n, cur, row);
}

// The multipliers, by rooms to work in.
fn solve_sides(
    found: &mut [u8],
    l: Layout,
    h: u32,
    p: u32,
    helpers: &[u32],
    sides: &mut [u8],
    points: &mut [u8],
    coefs: &mut [u8],
    row: &mut [u8],
    cur: &mut [u8],
)
    requires { Grouped l h p helpers.now × Rooms found.old sides.old points.old coefs.old row.old cur.old }
    ensures { Multipliers gf256 l h p helpers.now found.new }
{
    let d = l.helpers as usize;
    let n = sums::unknown_count(l) as usize;
    let s = layout::digit_count(l) as usize;
    sums::unknown_points(points, l, h, 1, p as usize, helpers, 1, 1, row);
    power_sides(sides, l, h, p, helpers, row, cur);
    columns::solve_first(found, d, 1, d, 1, n, s, sides, points, coefs, row);
}

// The multipliers, first in a room, as a card has them: d, helpers rising, for each of the s sums, digit 0 first.
pub fn right_multipliers(found: &mut [u8], l: Layout, h: u32, p: u32, helpers: &[u32])
    requires { Grouped l h p helpers.now × (room_limit ≤ length found.old) }
    ensures { Multipliers gf256 l h p helpers.now found.new }
{
    let mut sides = [0u8; blocks::ROOM];
    let mut points = [0u8; blocks::ROOM];
    let mut coefs = [0u8; blocks::ROOM];
    let mut row = [0u8; blocks::BLOCK];
    let mut cur = [0u8; blocks::BLOCK];
    solve_sides(
        found,
        l,
        h,
        p,
        helpers,
        &mut sides,
        &mut points,
        &mut coefs,
        &mut row,
        &mut cur,
    );
}
