// The sums of the checks in the way that suits the numbers of each field: by racks in the first, tray after tray in the second.
ghost use Rattle.std.specs.Prelude.{◌≡◌, ◌*◌, length};
ghost use Rattle.layout.specs.Layout.{trays, layers};
ghost use Rattle.blocks.specs.Inner.{Block};
ghost use Rattle.syndrome.specs.Inner.{Listed, Room, Sums};

use field::FieldNumber;
use layout::Layout;

pub trait SumChecks: FieldNumber {
    // The first r checks of a block's layers, over the trays that are not listed.
    fn sum_kept(
        sums: &mut [Self],
        l: Layout,
        w: usize,
        first: usize,
        r: usize,
        c: &[Self],
        es: &[u32],
        cur: &mut [Self],
        row: &mut [Self],
    )
        requires { Block l w first × Room w r sums.old cur.old row.old × (length c.now ≡ trays l * layers l) × Listed l es.now }
        ensures { Sums Self.field l w first r (Self.codes c.now) es.now (trays l) (Self.codes sums.new) };
}

impl SumChecks for u8 {
    fn sum_kept(
        sums: &mut [u8],
        l: Layout,
        w: usize,
        first: usize,
        r: usize,
        c: &[u8],
        es: &[u32],
        cur: &mut [u8],
        row: &mut [u8],
    ) {
        crate::sum_kept(sums, l, w, first, r, c, es, cur, row);
    }
}

impl SumChecks for u16 {
    fn sum_kept(
        sums: &mut [u16],
        l: Layout,
        w: usize,
        first: usize,
        r: usize,
        c: &[u16],
        es: &[u32],
        cur: &mut [u16],
        row: &mut [u16],
    ) {
        syndrome::sum_kept(sums, l, w, first, r, c, es, cur, row);
    }
}
