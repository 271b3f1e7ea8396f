// The table of registers: a byte for each wire. Its place is twice the number of the register, and one more for a Qubit: one number
// and no struct, for the lent table has one byte for each wire (most_wires).
ghost use Rattle.std.specs.Prelude.{ℕ, ◌+◌, ◌*◌, ◌/◌, ◌%◌, ◌≤◌, ◌<◌, ◌≡◌, List, [], ◌∷◌, ◌++◌, map, length, get_or, take};
ghost use Rattle.rules.specs.Types.{Wire, wire_code};
ghost use Rattle.rules.specs.Gates.{wires_out};
ghost use Rattle.rules.specs.GateCodes.{wires_code};
ghost use Rattle.words.specs.Numbers.{words_at};
ghost use Rattle.listing.specs.Listing.{entry_slots};
ghost use Rattle.listing.specs.Reading.{input_type};
ghost use Rattle.openqasm_export.specs.Places.{place_bytes, Begins, retyped, kept_places};

use listing::BIT_INPUT;
use rules::made_code;
use wire_table::make_wire;
use words::{byte_at, word_at};

// The place of input k, by its kind.
pub(crate) fn input_place(kind: usize, k: usize) -> u8
    requires { k < 128 }
    ensures { result ≡ 2 * k + wire_code (input_type kind) }
{
    if kind == BIT_INPUT {
        return (2 * k) as u8;
    }
    (2 * k + 1) as u8
}

// The place of the wire in a slot, where so many wires stand from a place of the listing on; 0 behind them.
pub(crate) fn place_at(
    listing: &[u8],
    from: usize,
    count: usize,
    slot: usize,
    table: &[u8],
) -> usize
    requires { (from < 134217728) × (slot < entry_slots) }
    ensures value { result ≡ get_or (map (λ w. get_or table.now w 0) (words_at listing.now from count)) slot 0 }
    ensures upper_bound { result < 256 }
{
    if slot < count {
        return byte_at(table, word_at(listing, from + 2 * slot)) as usize;
    }
    0
}

// The place in the same register with another type, by the type's code.
fn retype(place: usize, code: usize) -> u8
    requires { place < 256 }
    ensures { result ≡ retyped place code }
{
    if code == 2 {
        return (2 * (place / 2) + 1) as u8;
    }
    (2 * (place / 2)) as u8
}

// The first of the wires whose types have this code, if there is one, stays in the register of a place; it gets this number. The
// answer is the number of the next wire.
fn keep_place(codes: usize, place: usize, table: &mut [u8], made: usize) -> usize
    requires { (place < 256) × (made < 134217730) }
    ensures upper_bound { ((αs : List Wire) → codes ≡ wires_code αs → result ≡ made + length (take 1 αs)) × (result ≤ made + 1) }
    ensures begins { (αs : List Wire) (bytes : List ℕ)
        → codes ≡ wires_code αs
        → Begins table.old bytes
        → made ≡ length bytes
        → made < length table.old
        → Begins table.new (bytes ++ place_bytes (place / 2 ∷ []) (take 1 αs)) }
{
    if codes == 0 {
        return made;
    }
    make_wire(table, made, retype(place, codes % 4));
    made + 1
}

// The wires that a gate makes stay in the registers of those that it takes, whose places are given; the first one gets this number.
// The answer is the number of the next wire.
pub(crate) fn keep_places(
    gate: usize,
    first: usize,
    second: usize,
    third: usize,
    table: &mut [u8],
    made: usize,
) -> usize
    requires { (first < 256) × (second < 256) × (third < 256) × (made < 134217728) }
    ensures value { result ≡ made + wires_out gate }
    ensures by_index { (bytes : List ℕ)
        → Begins table.old bytes
        → made ≡ length bytes
        → made + entry_slots ≤ length table.old
        → Begins table.new (bytes ++ kept_places gate (first ∷ second ∷ third ∷ [])) }
{
    let codes = made_code(gate);
    let one = keep_place(codes, first, table, made);
    let two = keep_place(codes / 4, second, table, one);
    keep_place(codes / 4 / 4, third, table, two)
}
