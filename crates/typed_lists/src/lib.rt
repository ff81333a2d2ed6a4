// Lists of trays and lists of racks, told apart by their types.
#![tactic(auto)]

// A list of trays' numbers, as it was lent.
#[derive(Clone, Copy)]
pub struct Trays<'a>(pub &'a [u32]);

// A list of racks' numbers, as it was lent.
#[derive(Clone, Copy)]
pub struct Racks<'a>(pub &'a [u32]);
