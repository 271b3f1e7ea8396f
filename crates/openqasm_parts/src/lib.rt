// The parts of a listing, read loosely from an OpenQASM text (02, ticket 4), and the listing of them.
// Believe: specs/Reading, which the definition of an import uses; what an import means is said without it.
// Main theorem: parts_back (proofs/Theorems/ReadBack), that the parts of an export are those of which it was made.
// Called by the import.
#![tactic(auto)]

mod entries;
mod registers;

ghost use Rattle.std.specs.Prelude.{ℕ, ◌≤◌, ◌≡◌, List, length};
ghost use Rattle.rules.specs.Circuits.{numbers};
ghost use Rattle.rules.specs.Sizes.{most_labels, most_gates};
ghost use Rattle.text.specs.Written.{Written};
ghost use Rattle.listing.specs.Listing.{most_outputs};
ghost use Rattle.openqasm_parts.specs.Reading.{is_input, listing_read, slots_bytes};
ghost use Rattle.openqasm_parts.specs.Stored.{kinds_bytes, assembled, InputsRead, GatesRead, OutputsRead};

use entries::{put_entry, put_slot, put_word};
use listing::{ENTRY_SLOTS, MOST_OUTPUTS};
use openqasm_reader::{BIT_ITEM, OUTPUT_ITEM, QUBIT_ITEM, read_item};
use registers::{hold_wires, number_registers, slot_wire, wire_in};
use rules::sizes::{MOST_GATES, MOST_LABELS};
use rules::slots::NO_WIRE;
use rules::{is_gate, wires_in};
use text::Writer;

// What the reading needs: a byte for the kind of each entry; the slots of each entry, and the outputs behind them.
pub const KINDS_BYTES: usize = MOST_LABELS + MOST_GATES;

pub const SLOTS_BYTES: usize = 2 * ENTRY_SLOTS * (MOST_LABELS + MOST_GATES) + 2 * MOST_OUTPUTS;

// The header of a text, and `// out` before the outputs, have so many bytes.
const HEADER: usize = 36;

const OUTPUTS_MARK: usize = 6;

// How many items of one sort were read, and the place in the text behind them.
#[derive(Drop)]
struct Progress {
    count: usize,
    at: usize,
}

// Is an item of this kind a declaration? The check of a listing asks the like of a listing's kinds; this is `is_input` of items, which the
// reading of a text is defined by.
fn is_input(kind: usize) -> bool
    ensures { result ≡ is_input kind }
{
    matches!(kind, BIT_ITEM | QUBIT_ITEM)
}

// The declarations.
fn read_inputs(text: &[u8], kinds: &mut [u8], slots: &mut [u8]) -> Progress
    requires { (kinds_bytes ≤ length kinds.old) × (slots_bytes ≤ length slots.old) }
    ensures { InputsRead most_labels 0 text.now result.at result.count kinds.new slots.new }
{
    let mut at = HEADER;
    for i in 0..MOST_LABELS {
        let item = read_item(text, at);
        if !is_input(item.kind) {
            return Progress { count: i, at };
        }
        put_entry(kinds, slots, i, item.kind, NO_WIRE, NO_WIRE, NO_WIRE);
        at += item.length;
    }
    Progress {
        count: MOST_LABELS,
        at,
    }
}

// The gates, from a place on, behind so many inputs.
fn read_gates(
    text: &[u8],
    at: usize,
    inputs: usize,
    held: &mut [u16],
    kinds: &mut [u8],
    slots: &mut [u8],
) -> Progress
    requires { (kinds_bytes ≤ length kinds.old)
        × (slots_bytes ≤ length slots.old)
        × (held.old ≡ numbers 0 most_labels)
        × InputsRead most_labels 0 text.now at inputs kinds.old slots.old }
    ensures { (made : ℕ)
        × GatesRead most_labels most_gates 0 text.now result.at inputs result.count made
        held.new kinds.new slots.new }
{
    let mut here = at;
    let mut made = inputs;
    for i in 0..MOST_GATES {
        let item = read_item(text, here);
        if !is_gate(item.kind) {
            return Progress { count: i, at: here };
        }
        let count = wires_in(item.kind);
        let first = slot_wire(held, count, 0, item.first);
        let second = slot_wire(held, count, 1, item.second);
        let third = slot_wire(held, count, 2, item.third);
        put_entry(kinds, slots, inputs + i, item.kind, first, second, third);
        made = hold_wires(held, count, item.first, item.second, item.third, made);
        here += item.length;
    }
    Progress {
        count: MOST_GATES,
        at: here,
    }
}

// The outputs, from the place behind so many inputs and gates on; answers how many.
fn read_outputs(
    text: &[u8],
    at: usize,
    inputs: usize,
    gates: usize,
    held: &[u16],
    slots: &mut [u8],
) -> usize
    requires { (slots_bytes ≤ length slots.old)
        × ((kinds : List ℕ) × (made : ℕ)
        × GatesRead most_labels most_gates 0 text.now at inputs gates made held.now kinds slots.old) }
    ensures { (kinds : List ℕ) (made : ℕ)
        → GatesRead most_labels most_gates 0 text.now at inputs gates made held.now kinds slots.old
        → (behind : ℕ)
        × OutputsRead most_labels most_gates most_outputs 0 text.now behind inputs gates result
        held.now kinds slots.new }
{
    let from = 2 * ENTRY_SLOTS * (inputs + gates);
    let mut here = at + OUTPUTS_MARK;
    for i in 0..MOST_OUTPUTS {
        let item = read_item(text, here);
        if item.kind != OUTPUT_ITEM {
            return i;
        }
        put_slot(slots, from + 2 * i, wire_in(held, item.first));
        here += item.length;
    }
    MOST_OUTPUTS
}

// The listing of so many inputs, gates and outputs: their numbers, their kinds, and their slots with the outputs behind them.
fn assemble(
    listing: &mut [u8],
    kinds: &[u8],
    slots: &[u8],
    inputs: usize,
    gates: usize,
    outputs: usize,
) -> usize
    requires { (inputs ≤ most_labels)
        × (gates ≤ most_gates)
        × (outputs ≤ most_outputs)
        × (kinds_bytes ≤ length kinds.now)
        × (slots_bytes ≤ length slots.now) }
    ensures { Written listing.old
        (assembled inputs gates outputs kinds.now slots.now)
        listing.new result }
{
    let entries = inputs + gates;
    let wires = 2 * ENTRY_SLOTS * entries + 2 * outputs;
    let mut out = Writer::new(listing);
    put_word(&mut out, inputs);
    put_word(&mut out, gates);
    put_word(&mut out, outputs);
    out.put_bytes(&kinds[..entries]);
    out.put_bytes(&slots[..wires]);
    out.at
}

// The listing of the parts that are read from a text is written from the start of a buffer, as much of it as that holds; answers
// how many bytes. Nothing is written where kinds or slots are too short.
pub fn read_listing(text: &[u8], kinds: &mut [u8], slots: &mut [u8], listing: &mut [u8]) -> usize
    ensures { kinds_bytes ≤ length kinds.old
        → slots_bytes ≤ length slots.old
        → Written listing.old (listing_read text.now) listing.new result }
{
    if kinds.len() < KINDS_BYTES {
        return 0;
    }
    if slots.len() < SLOTS_BYTES {
        return 0;
    }
    let mut held = [0u16; MOST_LABELS];
    number_registers(&mut held);
    let inputs = read_inputs(text, kinds, slots);
    let gates = read_gates(text, inputs.at, inputs.count, &mut held, kinds, slots);
    let outputs = read_outputs(text, gates.at, inputs.count, gates.count, &held, slots);
    assemble(listing, kinds, slots, inputs.count, gates.count, outputs)
}
