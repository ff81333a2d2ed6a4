// Repair cards (document 02, W13): printing the right card, testing a card, and repairing a group by one. The right multipliers are those of crate multipliers; a repair
// makes the host's rack sums by the card's own multipliers and goes on as every repair does (crate group). Promises, for every layout, list, card, buffer and group, the
// first ground of refusal that applies, 15 exactly where the card is not right, and no symbol changed; or the right card; or what a repair of that group answers and
// writes. Over lists of pieces and repairs by card the cutting claim holds (proofs/Mixed.antt).
#![tactic(auto)]

ghost use Rattle.std.specs.Prelude.{◌≡◌, true, [], ◌∷◌, ◌*◌, ◌<◌, ◌≤◌, length};
ghost use Rattle.symbol.specs.Elem.{gf256};
ghost use Rattle.layout.specs.Layout.{digits, Cabinet};
ghost use Rattle.range.specs.Range.{symbols_from};
ghost use Rattle.rule.specs.Rule.{shared_symbol};
ghost use Rattle.rule.specs.Lost.{Piece};
ghost use Rattle.seen.specs.Seen.{piece_symbols};
ghost use Rattle.card.specs.Card.{card_sum};
ghost use Rattle.multipliers.specs.Inner.{Grouped, Multipliers};
ghost use Rattle.cards.specs.Cards.{print_ground, test_ground, repair_ground, PrintAnswer, TestAnswer, CardAnswer};
ghost use Rattle.cards.specs.Inner.{same_numbers, Looking, Carding, Verdict, SumsBelow, CardRepairing};

use layout::{Layout, Tray};
use repair::Repaired;
use symbol::plain::{ORDER, difference, product};

// Whether the first len numbers of two buffers are the same.
fn alike(a: &[u8], b: &[u8], len: usize) -> bool
    requires { (len ≤ length a.now) × (len ≤ length b.now) }
    ensures { result ≡ same_numbers a.now b.now len }
{
    a[..len] == b[..len]
}

// Whether a card's numbers are the right multipliers.
fn right_card(l: Layout, h: u32, p: u32, helpers: &[u32], card: &[u8]) -> bool
    requires { Grouped l h p helpers.now × (length card.now ≡ digits l * l.helpers) × (symbols_from gf256 card.now 0 (length card.now) ≡ true) }
    ensures { Verdict gf256 l h p helpers.now card.now result }
{
    let mut found = [0u8; blocks::ROOM];
    multipliers::right_multipliers(&mut found, l, h, p, helpers);
    alike(card, &found, card.len())
}

// Writes the right multipliers.
fn print_card(card: &mut [u8], l: Layout, h: u32, p: u32, helpers: &[u32])
    requires { Grouped l h p helpers.now × (length card.old ≡ digits l * l.helpers) }
    ensures { Multipliers gf256 l h p helpers.now card.new }
{
    let n = card.len();
    let mut found = [0u8; blocks::ROOM];
    multipliers::right_multipliers(&mut found, l, h, p, helpers);
    kernel::copy(card, 0, n, &found, 0);
}

// The first ground of printing, 0 for none.
fn print_ground(l: Layout, x: u32, helpers: &[u32], card: usize, group: u64) -> u8
    ensures { result ≡ print_ground gf256 l x helpers.now group card }
{
    let d = l.helpers as usize;
    if !card::admits(ORDER as u32, l) {
        return 1;
    }
    if card != layout::digit_count(l) as usize * d {
        return 2;
    }
    if !card::in_layout(l, x, helpers, group) {
        return 3;
    }
    card::helpers_ground(l, x, helpers)
}

// The first ground of a test before the last, 0 for none.
fn test_ground(l: Layout, x: u32, helpers: &[u32], card: &[u8], group: u64) -> u8
    ensures { result ≡ test_ground gf256 l x helpers.now group card.now }
{
    let d = l.helpers as usize;
    if !card::admits(ORDER as u32, l) {
        return 1;
    }
    if card.len() != layout::digit_count(l) as usize * d {
        return 2;
    }
    if !card::in_layout(l, x, helpers, group) {
        return 3;
    }
    if !range::are_symbols(card, 0, card.len()) {
        return 3;
    }
    card::helpers_ground(l, x, helpers)
}

// Whether what a repair of one group looks at are symbols.
fn group_symbols(l: Layout, x: u32, shares: &[u8], host: &[u8], group: u64) -> bool
    requires { Looking l x shares.now host.now }
    ensures { result ≡ piece_symbols gf256 l (x ∷ []) shares.now host.now group 1 }
{
    let lost = [x];
    seen::piece_symbols(l, &lost, shares, host, group, 1)
}

// The first ground of a repair before the last, 0 for none.
fn repair_ground(
    l: Layout,
    x: u32,
    helpers: &[u32],
    card: &[u8],
    shares: &[u8],
    host: &[u8],
    spare: usize,
    group: u64,
) -> u8
    ensures { result ≡ repair_ground gf256 l x helpers.now group card.now shares.now host.now spare }
{
    let u = l.size as usize;
    let d = l.helpers as usize;
    if !card::admits(ORDER as u32, l) {
        return 1;
    }
    let total = layout::layer_count(l) as usize;
    if card.len() != layout::digit_count(l) as usize * d {
        return 2;
    }
    if shares.len() != d * layout::group_count(l) as usize {
        return 2;
    }
    if host.len() != u * total {
        return 2;
    }
    if spare != total {
        return 2;
    }
    if !card::in_layout(l, x, helpers, group) {
        return 3;
    }
    if !range::are_symbols(card, 0, card.len()) {
        return 3;
    }
    if !group_symbols(l, x, shares, host, group) {
        return 3;
    }
    card::helpers_ground(l, x, helpers)
}

// Prints the right card for a lost tray, its helpers and a group, or refuses and writes nothing.
pub fn card_print(l: Layout, lost: Tray, helpers: &[u32], card: &mut [u8], group: u64) -> u8
    ensures { PrintAnswer gf256 l lost.0 helpers.now group card.old card.new result }
{
    let u = l.size;
    let x = lost.number();
    let ground = print_ground(l, x, helpers, card.len(), group);
    if ground != 0 {
        return ground;
    }
    print_card(card, l, x / u, group as u32, helpers);
    0
}

// Tests a card: 0 where it is right.
pub fn card_test(l: Layout, lost: Tray, helpers: &[u32], card: &[u8], group: u64) -> u8
    ensures { TestAnswer gf256 l lost.0 helpers.now card.now group result }
{
    let u = l.size;
    let x = lost.number();
    let ground = test_ground(l, x, helpers, card, group);
    if ground != 0 {
        return ground;
    }
    if !right_card(l, x / u, group as u32, helpers, card) {
        return 15;
    }
    0
}

// Less the sum that the card makes of a group's share symbols for digit b.
fn card_sum(l: Layout, card: &[u8], shares: &[u8], p: u32, b: u32) -> u8
    requires { Carding l card.now shares.now p × (b < digits l) }
    ensures { gf256.coding.elem result ≡ gf256.ops.neg (card_sum gf256 l card.now (shared_symbol gf256 l shares.now p) b) }
{
    let d = l.helpers;
    let n = layout::group_count(l);
    let mut v = 0u8;
    for k in 0..d {
        let m = kernel::at(card, codeword::cell(d, b, k));
        v = difference(v, product(m, kernel::at(shares, codeword::cell(n, k, p))));
    }
    v
}

// Less the sums for all digits.
fn card_sums(sums: &mut [u8], l: Layout, card: &[u8], shares: &[u8], p: u32)
    requires { Carding l card.now shares.now p × (digits l ≤ length sums.old) }
    ensures { SumsBelow gf256 l card.now shares.now p (digits l) sums.new }
{
    let s = layout::digit_count(l);
    for b in 0..s {
        let v = card_sum(l, card, shares, p, b);
        kernel::fill(sums, b as usize, 1, v);
    }
}

// Repairs a group by the card.
fn repair_by_card(
    l: Layout,
    x: u32,
    helpers: &[u32],
    card: &[u8],
    shares: &[u8],
    host: &[u8],
    p: u32,
    spare: &mut [u8],
)
    requires { CardRepairing gf256 l x helpers.now card.now shares.now host.now p spare.old }
    ensures { Piece gf256 l (x ∷ []) helpers.now shares.now host.now p 1 spare.old spare.new }
{
    let u = l.size;
    let lost = [x];
    let mut sums = [0u8; blocks::BLOCK];
    let mut rests = [0u8; blocks::BLOCK];
    let mut found = [0u8; blocks::BLOCK];
    let mut places = [0u8; blocks::BLOCK];
    let mut coefs = [0u8; blocks::BLOCK];
    let mut row = [0u8; blocks::BLOCK];
    let mut cur = [0u8; blocks::BLOCK];
    card_sums(&mut sums, l, card, shares, p);
    group::repair_block(
        l,
        x / u,
        &lost,
        host,
        1,
        p,
        &sums,
        &mut rests,
        &mut found,
        &mut places,
        &mut coefs,
        &mut row,
        &mut cur,
        spare,
    );
}

// Repairs a group of the lost tray by a card, or refuses and writes nothing.
pub fn card_repair(
    l: Layout,
    lost: Tray,
    helpers: &[u32],
    card: &[u8],
    shares: &[u8],
    host: &[u8],
    spare: &mut [u8],
    group: u64,
) -> Repaired
    ensures { CardAnswer gf256 l lost.0 helpers.now card.now shares.now host.now group spare.old spare.new result }
{
    let u = l.size;
    let d = l.helpers as u64;
    let x = lost.number();
    let ground = repair_ground(l, x, helpers, card, shares, host, spare.len(), group);
    if ground != 0 {
        return Repaired::Refused(ground);
    }
    if !right_card(l, x / u, group as u32, helpers, card) {
        return Repaired::Refused(15);
    }
    repair_by_card(l, x, helpers, card, shares, host, group as u32, spare);
    Repaired::Done {
        groups: 1,
        crossed: d,
        remaining: d * (layout::group_count(l) as u64 - group - 1),
    }
}
