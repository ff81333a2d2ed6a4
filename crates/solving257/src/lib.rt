// Made by tools/twin.py from crates/solving/src/lib.rt.
// A block of layers solved for the trays listed: the symbols that make up for the sums of its checks, by the products of differences.
#![tactic(auto)]

ghost use Rattle.std.specs.Prelude.{◌≡◌, ◌^◌, ◌≤◌, length};
ghost use Rattle.symbol257.specs.Elem.{gf257};
ghost use Rattle.layout.specs.Layout.{digits};
ghost use Rattle.blocks.specs.Inner.{Block};
ghost use Rattle.syndrome.specs.Inner.{Listed};
ghost use Rattle.solving.specs.Inner.{Columns, ListedPoints, Workspace, FoundBlock};

use layout::Layout;

// The points of the trays listed, one for each run of layers.
fn listed_points(
    points: &mut [u16],
    l: Layout,
    w: usize,
    first: usize,
    es: &[u32],
    v: usize,
    run: usize,
    row: &mut [u16],
)
    requires { Columns l w first es.now v run points.old row.old }
    ensures { ListedPoints gf257 l first es.now v run (length es.now) points.new }
{
    for (k, x) in es.iter().enumerate() {
        syndrome::tray_points(row, l, w, first, *x);
        kernel::sample(points, k * v, v, row, run);
    }
}

// The symbols of the trays listed that make up for the sums of a block.
pub fn solve_block(
    found: &mut [u16],
    l: Layout,
    e: u32,
    w: usize,
    first: usize,
    es: &[u32],
    sums: &[u16],
    points: &mut [u16],
    coefs: &mut [u16],
    row: &mut [u16],
)
    requires { Block l w first × (e ≤ l.racks) × (w ≡ digits l ^ e) × Listed l es.now × Workspace l w sums.now found.old points.old coefs.old row.old }
    ensures { FoundBlock gf257 l w first es.now sums.now found.new }
{
    let p = blocks::cycle_of(l, e, es);
    let run = p.run;
    let v = p.columns;
    let turns = p.turns;
    listed_points(points, l, w, first, es, v, run, row);
    columns::solve(found, w, v, run, turns, es.len(), sums, points, coefs, row);
}
