// The sizes of a listing and the form of its entries: 24 and 25.
ghost use Rattle.std.specs.Prelude.{◌-◌, ◌≤◌, ◌<◌, ◌≡◌, ◌||◌, eqb};
ghost use Rattle.rules.specs.Types.{Bit, Qubit};
ghost use Rattle.listing.specs.Listing.{input_kind, entry_slots};
ghost use Rattle.listing.specs.Reading.{input_count, entry_count, slots_from};
ghost use Rattle.wire_table.specs.Wires.{first_where};
ghost use Rattle.words.specs.Found.{option_of};
ghost use Rattle.listing_check.specs.Answers.{sizes_wrong, any_wire, entry_wrong};

use listing::{
    BIT_INPUT, ENTRY_BYTES, ENTRY_SLOTS, MOST_OUTPUTS, QUBIT_INPUT, SIZES, gate_count, input_count,
    kind_at, output_count, slots_from,
};
use rules::sizes::{MOST_GATES, MOST_LABELS};
use rules::slots::NO_WIRE;
use words::word_at;

// Is a size beyond its most, or the length another than the sizes give?
pub(crate) fn sizes_wrong(listing: &[u8]) -> bool
    ensures { result ≡ sizes_wrong listing.now }
{
    let inputs = input_count(listing);
    let gates = gate_count(listing);
    let outputs = output_count(listing);
    listing.len() < SIZES
        || MOST_LABELS < inputs
        || MOST_GATES < gates
        || MOST_OUTPUTS < outputs
        || listing.len() != SIZES + ENTRY_BYTES * (inputs + gates) + 2 * outputs
}

// Is there a wire in one of an entry's slots from slot k on?
fn any_wire(listing: &[u8], from: usize, k: usize) -> bool
    requires { (from < 134217728) × (k ≤ entry_slots) }
    ensures { result ≡ any_wire listing.now from k (entry_slots - k) }
{
    (k..ENTRY_SLOTS).any(|slot| word_at(listing, from + 2 * slot) != NO_WIRE)
}

// Is this the kind of an input?
fn is_input(kind: usize) -> bool
    ensures { result ≡ eqb kind (input_kind Bit) || eqb kind (input_kind Qubit) }
{
    matches!(kind, BIT_INPUT | QUBIT_INPUT)
}

// Is the kind of entry i not allowed, or is there a wire in a slot that it does not use? Its slots stand from a place on.
fn entry_wrong(listing: &[u8], inputs: usize, i: usize, from: usize) -> bool
    requires { (inputs ≡ input_count listing.now) × (from ≡ slots_from listing.now i) × (from < 134217728) }
    ensures { result ≡ entry_wrong listing.now i }
{
    let kind = kind_at(listing, i);
    if i < inputs {
        if is_input(kind) {
            return any_wire(listing, from, 0);
        }
        return true;
    }
    if rules::is_gate(kind) {
        return any_wire(listing, from, rules::wires_in(kind));
    }
    true
}

// The first wrong entry.
pub(crate) fn wrong_entry(listing: &[u8]) -> Option<usize>
    ensures { result ≡ option_of (first_where (entry_wrong listing.now) 0 (entry_count listing.now)) }
{
    let inputs = input_count(listing);
    let count = inputs + gate_count(listing);
    let from = slots_from(listing, 0);
    (0..count).find(|&i| entry_wrong(listing, inputs, i, from + 2 * ENTRY_SLOTS * i))
}
