// The wire rules of a listing: 26.
ghost use Rattle.std.specs.Prelude.{ℕ, ◌<◌, ◌≡◌, List, [], ◌++◌, length};
ghost use Rattle.std.proofs.Math.Option.{some};
ghost use Rattle.rules.specs.Types.{Wire};
ghost use Rattle.rules.specs.Circuits.{outputs};
ghost use Rattle.listing.specs.Reading.{input_type, inputs_of, gates_of, outputs_of};
ghost use Rattle.wire_table.specs.Wires.{maker, broken_at};
ghost use Rattle.wire_table.specs.Table.{wire_byte, Holds};
ghost use Rattle.listing_check.specs.Answers.{wires_judged};
ghost use Rattle.listing_check.specs.Wires.{GatesRead, OutputsRead, Whole};

use crate::{LEAST_WORK, ListingSizes, refused};
use listing::{
    BIT_INPUT, ENTRY_SLOTS, gate_count, input_count, kind_at, output_count, outputs_from,
    slots_from,
};
use refusals::Refusal;
use wire_table::{lowest_there, make_wire, make_wires, take_any, take_wires};
use words::word_at;

// The byte of an input in the table, by its kind.
fn input_byte(kind: usize) -> u8
    ensures { result ≡ wire_byte (some (input_type kind)) }
{
    if kind == BIT_INPUT { 1 } else { 2 }
}

// The listing and the table stay two parameters, with Whole of both in three contracts: a struct that keeps the table as a `&mut` has to
// say in each contract that it is still the caller's.

// The inputs are made in an empty table.
fn make_inputs(listing: &[u8], table: &mut [u8])
    requires { Holds table.old [] [] × Whole listing.now table.old }
    ensures { Holds table.new (inputs_of listing.now) [] }
{
    for i in 0..input_count(listing) {
        make_wire(table, i, input_byte(kind_at(listing, i)));
    }
}

// The first gate that takes a wire wrongly. The table has the inputs; where no gate is wrong, it has the wires that are there after all
// gates.
fn wrong_gate(listing: &[u8], table: &mut [u8]) -> Option<usize>
    requires { Holds table.old (inputs_of listing.now) [] × Whole listing.now table.old }
    ensures { GatesRead listing.now table.new result }
{
    let inputs = input_count(listing);
    let from = slots_from(listing, inputs);
    let mut made = inputs;
    for i in 0..gate_count(listing) {
        let gate = kind_at(listing, inputs + i);
        if !take_wires(listing, from + 2 * ENTRY_SLOTS * i, gate, table) {
            return Some(i);
        }
        made = make_wires(gate, table, made);
    }
    None
}

// The first wrong output. Where none is, the table has the wires that are left.
fn wrong_output(listing: &[u8], table: &mut [u8]) -> Option<usize>
    ensures { (types : List Wire) (gone : List ℕ)
        → Holds table.old types gone
        → OutputsRead types gone (outputs_of listing.now) table.new result }
{
    let from = outputs_from(listing);
    for j in 0..output_count(listing) {
        if !take_any(table, word_at(listing, from + 2 * j)) {
            return Some(j);
        }
    }
    None
}

// The entry that made a wire.
fn maker_of(listing: &[u8], w: usize) -> usize
    requires { w < length (inputs_of listing.now ++ outputs (gates_of listing.now)) }
    ensures { result ≡ maker (inputs_of listing.now) (gates_of listing.now) w }
{
    let inputs = input_count(listing);
    if w < inputs {
        return w;
    }
    let mut made = inputs;
    for i in 0..gate_count(listing) {
        made += rules::wires_out(kind_at(listing, inputs + i));
        if w < made {
            return inputs + i;
        }
    }
    unreachable!()
}

// The wire rules of a listing whose entries are right, with a table in which no wire is: accepted, or 26 with its place.
pub(crate) fn check_wires(listing: &[u8], table: &mut [u8]) -> Result<ListingSizes, Refusal>
    requires { Holds table.old [] [] × Whole listing.now table.old }
    ensures { result ≡ wires_judged listing.now (broken_at (inputs_of listing.now) (gates_of listing.now) (outputs_of listing.now)) }
{
    make_inputs(listing, table);
    let inputs = input_count(listing);
    let gates = gate_count(listing);
    let outputs = output_count(listing);
    if let Some(gate) = wrong_gate(listing, table) {
        return refused(26, inputs + gate);
    }
    if let Some(output) = wrong_output(listing, table) {
        return refused(26, inputs + gates + output);
    }
    if let Some(w) = lowest_there(table, LEAST_WORK) {
        return refused(26, maker_of(listing, w));
    }
    Ok(ListingSizes {
        inputs,
        gates,
        outputs,
    })
}
