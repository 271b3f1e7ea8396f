// The listing of a circuit as bytes (01, "Listing"): its layout, and what is read in it.
// Believe: specs/Listing, the listing of a circuit with its outputs.
// Main laws: proofs/Laws/ReadBack (the parts of a circuit are read back from its listing), listing_fits (proofs/Laws/Lengths).
// Called by the writer of listings and by wirelist's lines.
#![tactic(auto)]

ghost use Rattle.std.specs.Prelude.{◌<◌, ◌≡◌};
ghost use Rattle.listing.specs.Reading.{input_count, gate_count, output_count, entry_count, kind_at, slots_from, outputs_from};

use rules::sizes::{MOST_GATES, MOST_LABELS};
use words::{byte_at, word_at};

// How many bytes the three sizes take, and where each stands: inputs, gates, outputs.
pub const SIZES: usize = 6;

pub const INPUTS: usize = 0;

pub const GATES: usize = 2;

pub const OUTPUTS: usize = 4;

// The kinds of a Bit input and of a Qubit input. No enum: kind_at of specs/Reading is the byte that stands there, which may be no kind.
pub const BIT_INPUT: usize = 128;

pub const QUBIT_INPUT: usize = 129;

// How many slots for wires an entry has, an input or a gate.
pub const ENTRY_SLOTS: usize = 3;

// How many bytes an entry takes: its kind and its slots.
pub const ENTRY_BYTES: usize = 1 + 2 * ENTRY_SLOTS;

// A listing has at most so many outputs.
pub const MOST_OUTPUTS: usize = 256;

// The longest listing.
pub const MOST_BYTES: usize = SIZES + ENTRY_BYTES * (MOST_LABELS + MOST_GATES) + 2 * MOST_OUTPUTS;

// Places in a listing are worked out for entries below this number; no listing has as many.
const MANY: usize = 1048576;

// How many inputs there are.
pub fn input_count(listing: &[u8]) -> usize
    ensures value { result ≡ input_count listing.now }
    ensures upper_bound { result < 65536 }
{
    word_at(listing, INPUTS)
}

// How many gates there are.
pub fn gate_count(listing: &[u8]) -> usize
    ensures value { result ≡ gate_count listing.now }
    ensures upper_bound { result < 65536 }
{
    word_at(listing, GATES)
}

// How many outputs there are.
pub fn output_count(listing: &[u8]) -> usize
    ensures value { result ≡ output_count listing.now }
    ensures upper_bound { result < 65536 }
{
    word_at(listing, OUTPUTS)
}

// The kind of an entry; 0 past the end.
pub fn kind_at(listing: &[u8], i: usize) -> usize
    ensures value { result ≡ kind_at listing.now i }
    ensures upper_bound { result < 256 }
{
    if listing.len() <= i {
        return 0;
    }
    byte_at(listing, SIZES + i) as usize
}

// How many entries there are, inputs and gates.
fn entry_count(listing: &[u8]) -> usize
    ensures value { result ≡ entry_count listing.now }
    ensures upper_bound { result < 131072 }
{
    input_count(listing) + gate_count(listing)
}

// Where the slots of an entry stand; 0 for an entry that no listing has. No Option: callers ask for entries that are there, and would
// have to unwrap it.
pub fn slots_from(listing: &[u8], i: usize) -> usize
    ensures value { i < 1048576 → result ≡ slots_from listing.now i }
    ensures upper_bound { result < 134217728 }
{
    if MANY <= i {
        return 0;
    }
    SIZES + entry_count(listing) + 2 * ENTRY_SLOTS * i
}

// Where the output wires stand.
pub fn outputs_from(listing: &[u8]) -> usize
    ensures value { result ≡ outputs_from listing.now }
    ensures upper_bound { result < 134217728 }
{
    SIZES + ENTRY_BYTES * entry_count(listing)
}
