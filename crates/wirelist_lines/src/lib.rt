// The lines that wirelist prints for a listing or a refusal (01, "Listing").
// Believe: specs/Lines and specs/Least.
// Main theorem: in_order (proofs/Theorems/Lines), of a circuit's listing these are the circuit's lines; no line ends in a space
// (lines_solid in proofs/Theorems/Spaces).
// Called by wirelist_io.
#![tactic(auto)]

pub mod names;
pub mod numbers;

ghost use Rattle.std.specs.Prelude.{◌≤◌, ◌<◌, length};
ghost use Rattle.rules.specs.Gates.{wires_in, wires_out};
ghost use Rattle.rules.specs.Circuits.{numbers};
ghost use Rattle.listing.specs.Pieces.{pieces};
ghost use Rattle.wirelist_lines.specs.Lines.{gate_line, steps_line, refused_line};
ghost use Rattle.wirelist_lines.specs.Least.{refusal_bytes};
ghost use Rattle.text.specs.Written.{Written};
ghost use Rattle.text.specs.Writer.{Writes};
ghost use Rattle.words.specs.Numbers.{words_at};
ghost use Rattle.listing.specs.Reading.{input_count, gate_count, slots_from};
ghost use Rattle.wirelist_lines.specs.LinesAt.{input_line_at, gate_line_at, out_line_at, text_at, taken_part};

use listing::{
    BIT_INPUT, gate_count, input_count, kind_at, output_count, outputs_from, slots_from,
};
use names::name_of;
use numbers::{put_numbers, put_words};
use text::Writer;

// The least length of a buffer that holds every text, and of one that holds the line of every refusal.
pub const LEAST_TEXT: usize = 94357;

pub const REFUSAL_BYTES: usize = 50;

// The end of a line.
const LINE_END: u8 = 10;

// The line of an input.
fn write_input(listing: &[u8], i: usize, out: &mut Writer)
    requires { i < 65536 }
    ensures { Writes out.old (input_line_at listing.now i) out.new }
{
    out.put_bytes(b"in");
    out.put_number(i);
    if kind_at(listing, i) == BIT_INPUT {
        out.put_bytes(b" Bit\n");
    } else {
        out.put_bytes(b" Qubit\n");
    }
}

// The lines of the inputs.
fn write_inputs(listing: &[u8], out: &mut Writer)
    ensures { Writes out.old (pieces (input_line_at listing.now) (input_count listing.now)) out.new }
{
    for i in 0..input_count(listing) {
        write_input(listing, i, out);
    }
}

// What stands in the line of a gate before the colon.
fn write_taken(listing: &[u8], i: usize, number: usize, out: &mut Writer)
    requires { i < 262144 }
    ensures { Writes out.old
        (taken_part number (words_at listing.now (slots_from listing.now i) (wires_in number)))
        out.new }
{
    out.put_bytes(b"gate ");
    out.put_bytes(name_of(number));
    put_words(
        out,
        listing,
        slots_from(listing, i),
        rules::wires_in(number),
    );
}

// The line of the gate with this number at entry i, before which so many wires were made.
fn write_gate(listing: &[u8], i: usize, number: usize, made: usize, out: &mut Writer)
    requires i_bound { i < 262144 }
    requires made_bound { made < 1048576 }
    ensures { Writes out.old
        (gate_line number
        (words_at listing.now (slots_from listing.now i) (wires_in number))
        (numbers made (wires_out number)))
        out.new }
{
    write_taken(listing, i, number, out);
    out.put_bytes(b" :");
    put_numbers(out, made, rules::wires_out(number));
    out.put_byte(LINE_END);
}

// The lines of the gates. The wires made so far are counted on from gate to gate.
fn write_gates(listing: &[u8], out: &mut Writer)
    ensures { Writes out.old (pieces (gate_line_at listing.now) (gate_count listing.now)) out.new }
{
    let inputs = input_count(listing);
    let mut made = inputs;
    for i in 0..gate_count(listing) {
        let number = kind_at(listing, inputs + i);
        write_gate(listing, inputs + i, number, made, out);
        made += rules::wires_out(number);
    }
}

// The line of the outputs.
fn write_outputs(listing: &[u8], out: &mut Writer)
    ensures { Writes out.old (out_line_at listing.now) out.new }
{
    out.put_bytes(b"out");
    put_words(out, listing, outputs_from(listing), output_count(listing));
    out.put_byte(LINE_END);
}

// The line of the steps.
fn write_steps(steps: usize, out: &mut Writer)
    ensures { Writes out.old (steps_line steps) out.new }
{
    out.put_bytes(b"steps");
    out.put_number(steps);
    out.put_byte(LINE_END);
}

// All lines of a listing and the steps of its run are written from the start of the text, as much of them as that holds;
// answers how many bytes.
pub fn write_lines(listing: &[u8], steps: usize, text: &mut [u8]) -> usize
    ensures { Written text.old (text_at listing.now steps) text.new result }
{
    let mut out = Writer::new(text);
    write_inputs(listing, &mut out);
    write_gates(listing, &mut out);
    write_outputs(listing, &mut out);
    write_steps(steps, &mut out);
    out.at
}

// The line of a refusal is written from the start of the text, as much of it as that holds; answers how many bytes. A text
// of 50 bytes holds it whole.
pub fn write_refusal(number: usize, place: usize, text: &mut [u8]) -> usize
    ensures written { Written text.old (refused_line number place) text.new result }
    ensures place_len_bound { length (refused_line number place) ≤ refusal_bytes }
{
    let mut out = Writer::new(text);
    out.put_bytes(b"refused");
    out.put_number(number);
    out.put_number(place);
    out.put_byte(LINE_END);
    out.at
}
