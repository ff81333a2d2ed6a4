// The numbers that stand for the symbols of a field in a buffer, as a trait: the code above is written once, over any such numbers. Promises nothing itself:
// what each operation gives stands in its clause, by the definitions of algebra/specs/Plain.antt, and the laws say what else the code needs of a field.
#![tactic(auto)]

pub mod bytes;
pub mod wide;

ghost use Rattle.std.specs.Prelude.{◌≡◌, ℕ, List, ◌+◌, ◌<◌, ◌≤◌, length, get_or, ltb};
ghost use Rattle.std.specs.Mem.{type_size};
ghost use Rattle.algebra.specs.Below.{Below};
ghost use Rattle.algebra.specs.Field.{Ops};
ghost use Rattle.algebra.specs.Shape.{Field};
ghost use Rattle.algebra.specs.Plain.{reduced, plus, minus, times, raised, root_power, Working};
ghost use Rattle.field.specs.Numbers.{AsNumbers, Inverted};

pub trait FieldNumber: Copy {
    // The number of symbols, and that of the root's powers.
    ghost SIZE: { ℕ };

    ghost ORDER: { ℕ };

    const SIZE: usize;

    const ORDER: usize;

    // The field, and how an item of a buffer, and a whole buffer, is read as numbers.
    ghost field: { Field (Below SIZE) };

    ghost code: { Self → ℕ };

    ghost codes: { List Self → List ℕ };

    // Zero, one, and less one.
    fn zero() -> Self
        ensures { code result ≡ 0 };

    fn one() -> Self
        ensures { code result ≡ 1 };

    fn minus_one() -> Self
        ensures { field.coding.elem (code result) ≡ field.ops.neg field.ops.one };

    // The number as the place of its symbol in a table of all.
    fn index(self) -> usize
        ensures { (result ≡ reduced field (code self)) × (result < field.coding.size) };

    // Whether it is below another number.
    fn is_below(self, o: Self) -> bool
        ensures { result ≡ ltb (code self) (code o) };

    // Whether it is below the number of symbols.
    fn is_symbol(self) -> bool
        ensures { result ≡ ltb (code self) field.coding.size };

    fn sum(self, o: Self) -> Self
        ensures { code result ≡ plus field (code self) (code o) };

    fn difference(self, o: Self) -> Self
        ensures { code result ≡ minus field (code self) (code o) };

    fn product(self, o: Self) -> Self
        ensures { code result ≡ times field (code self) (code o) };

    // A product that need not be reduced, and a sum with such a one (lazy reduction).
    fn lazy_product(self, o: Self) -> Self
        ensures { (field.coding.elem (code result) ≡ field.ops.mul (field.coding.elem (code self)) (field.coding.elem (code o))) × (code result ≤ 1024) };

    fn lazy_sum(self, o: Self) -> Self
        requires { code o ≤ 1024 }
        ensures { field.coding.elem (code result) ≡ field.ops.add (field.coding.elem (code self)) (field.coding.elem (code o)) };

    // A number added to a sum of few small ones.
    fn gather(self, o: Self) -> Self
        requires { code self + code o < 65536 }
        ensures { (field.coding.elem (code result) ≡ field.ops.add (field.coding.elem (code self)) (field.coding.elem (code o))) × ((m : ℕ) → field.coding.size ≤ m → code self + code o ≤ m → code result ≤ m) };

    // The symbol that the number stands for.
    fn settle(self) -> Self
        ensures { code result ≡ reduced field (code self) };

    // The number plus a product.
    fn sum_product(self, x: Self, y: Self) -> Self
        ensures { code result ≡ plus field (code self) (times field (code x) (code y)) };

    fn power(self, e: u32) -> Self
        ensures { code result ≡ raised field (code self) e };

    fn root_power(e: usize) -> Self
        ensures { code result ≡ root_power field e };

    // The inverses of the numbers of a run; of zero, zero.
    fn invert(out: &mut [Self], to: usize, len: usize)
        requires { to + len ≤ length out.old }
        ensures { Inverted field (codes out.old) (codes out.new) to len };

    // What the code needs of the field, and how its numbers are read.
    ghost working: { Working field };

    ghost order_is: { field.order ≡ ORDER };

    ghost small: { field.coding.size ≤ 257 };

    ghost numbers: { AsNumbers code codes };

    // A number takes one byte or two.
    ghost narrow: { type_size Self.row ≤ 2 };
}
