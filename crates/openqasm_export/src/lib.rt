// The export of a listing to OpenQASM 2.0 (02, ticket 4), with refusal 28 (ticket 5).
// Believe: specs/Answers and Meaning.
// Main theorem: twenty_eight (proofs/Theorems/Exports), that 28 is the answer exactly where Meaning says. Main law: sound_fits
// (proofs/Laws/Longest), that no text is longer than 55,211 bytes.
// check_export and write_text are the core, for the import too. Called by cabinet and by qasmout.
#![tactic(auto)]

mod places;

ghost use Rattle.std.specs.Prelude.{◌≤◌, ◌≡◌, [], ◌∷◌, map, length};
ghost use Rattle.lent.specs.Lent.{first_bytes, last_bytes};
ghost use Rattle.text.specs.Text.{spaced};
ghost use Rattle.text.specs.Writer.{SameText, Writes};
ghost use Rattle.text.specs.Writing.{Puts};
ghost use Rattle.text.specs.Written.{Written};
ghost use Rattle.listing.specs.Reading.{inputs_of, gates_of, outputs_of};
ghost use Rattle.listing_check.specs.Wires.{Whole};
ghost use Rattle.listing_check.specs.Answers.{most_wires};
ghost use Rattle.words.specs.Found.{option_of};
ghost use Rattle.openqasm.specs.Layout.{AllWritten, declarations, gate_lines, output_name, output_line, export_of, most_text};
ghost use Rattle.openqasm_export.specs.Answers.{first_unwritten, export_check_of, exported_as, out_after, export_answer, export_bytes};
ghost use Rattle.openqasm_export.specs.Places.{places_of, Begins};

use listing::{
    ENTRY_SLOTS, gate_count, input_count, kind_at, output_count, outputs_from, slots_from,
};
use listing_check::{LEAST_WORK, ListingSizes, check_uncleared};
use openqasm::{has_statement, write_declaration, write_gate, write_header, write_output};
use places::{input_place, keep_places, place_at};
use refusals::{Refusal, TOO_SHORT};
use rules::sizes::{MOST_GATES, MOST_LABELS};
use rules::wires_in;
use text::Writer;
use wire_table::make_wire;
use words::{byte_at, clear, word_at};

// No text is longer.
pub const MOST_TEXT: usize = 36 + 26 * MOST_LABELS + 26 * MOST_GATES + (7 + 4 * MOST_LABELS);

const LINE_END: u8 = 10;

// The first gate entry whose gate has no statement.
fn unwritten_entry(listing: &[u8]) -> Option<usize>
    ensures { result ≡ option_of (first_unwritten listing.now) }
{
    let inputs = input_count(listing);
    let end = inputs + gate_count(listing);
    (inputs..end).find(|&entry| !has_statement(kind_at(listing, entry)))
}

// The check of a listing that is to be exported, without clearing its working memory, which has to be long enough.
pub fn check_export(listing: &[u8], work: &mut [u8]) -> Result<ListingSizes, Refusal>
    ensures { most_wires ≤ length work.old → result ≡ export_check_of listing.now }
{
    let sizes = check_uncleared(listing, work)?;
    if let Some(entry) = unwritten_entry(listing) {
        return Err(Refusal::Run {
            number: 28,
            place: entry,
        });
    }
    Ok(sizes)
}

// The declarations of the inputs; their places are put into a table of zeros.
fn write_inputs(listing: &[u8], table: &mut [u8], out: &mut Writer)
    requires { Begins table.old [] × Whole listing.now table.old }
    ensures puts { Writes out.old (declarations 0 (inputs_of listing.now)) out.new }
    ensures begins { Begins table.new (places_of (inputs_of listing.now) []) }
{
    for i in 0..input_count(listing) {
        let kind = kind_at(listing, i);
        write_declaration(out, i, kind);
        make_wire(table, i, input_place(kind, i));
    }
}

// The lines of the gates, which have to have statements. The table has the places of the inputs, and then those of all wires.
fn write_gates(listing: &[u8], table: &mut [u8], out: &mut Writer)
    requires { Begins table.old (places_of (inputs_of listing.now) []) × Whole listing.now table.old }
    ensures same_text { SameText out.old out.new }
    ensures puts { AllWritten (gates_of listing.now)
        → Puts out.old.text.now out.old.at (gate_lines (inputs_of listing.now) (gates_of listing.now)) out.new.text.now out.new.at }
    ensures begins { AllWritten (gates_of listing.now)
        → Begins table.new (places_of (inputs_of listing.now) (gates_of listing.now)) }
{
    let inputs = input_count(listing);
    let slots = slots_from(listing, inputs);
    let mut made = inputs;
    for i in 0..gate_count(listing) {
        let gate = kind_at(listing, inputs + i);
        let count = wires_in(gate);
        let from = slots + 2 * ENTRY_SLOTS * i;
        let first = place_at(listing, from, count, 0, table);
        let second = place_at(listing, from, count, 1, table);
        let third = place_at(listing, from, count, 2, table);
        write_gate(out, gate, first / 2, second / 2, third / 2);
        made = keep_places(gate, first, second, third, table, made);
    }
}

// The names of the outputs, each behind a space. The table has the places of all wires.
fn write_names(listing: &[u8], table: &[u8], out: &mut Writer)
    ensures same_text { SameText out.old out.new }
    ensures puts { AllWritten (gates_of listing.now)
        → Begins table.now (places_of (inputs_of listing.now) (gates_of listing.now))
        → Puts out.old.text.now out.old.at
        (spaced (map (output_name (inputs_of listing.now) (gates_of listing.now)) (outputs_of listing.now))) out.new.text.now out.new.at }
{
    let from = outputs_from(listing);
    for j in 0..output_count(listing) {
        let place = byte_at(table, word_at(listing, from + 2 * j)) as usize;
        write_output(out, place % 2 == 1, place / 2);
    }
}

// The last line, likewise.
fn write_outputs(listing: &[u8], table: &[u8], out: &mut Writer)
    ensures same_text { SameText out.old out.new }
    ensures puts { AllWritten (gates_of listing.now)
        → Begins table.now (places_of (inputs_of listing.now) (gates_of listing.now))
        → Puts out.old.text.now out.old.at
        (output_line (inputs_of listing.now) (gates_of listing.now) (outputs_of listing.now)) out.new.text.now out.new.at }
{
    out.put_bytes(b"// out");
    write_names(listing, table, out);
    out.put_byte(LINE_END);
}

// The text of a listing within the sizes, whose gates have statements, is written from the start of a text, as much of it as that
// holds; answers how many bytes. The table, one byte a wire, is zero before.
fn write_parts(listing: &[u8], table: &mut [u8], text: &mut [u8]) -> usize
    requires { Begins table.old [] × Whole listing.now table.old }
    ensures { AllWritten (gates_of listing.now) → Written text.old (export_of listing.now) text.new result }
{
    let mut out = Writer::new(text);
    write_header(&mut out);
    write_inputs(listing, table, &mut out);
    write_gates(listing, table, &mut out);
    write_outputs(listing, table, &mut out);
    out.at
}

// The same with a table that may hold anything; nothing is written where a size is beyond its most or the table is too short.
pub fn write_text(listing: &[u8], table: &mut [u8], text: &mut [u8]) -> usize
    ensures { Whole listing.now table.old
        → AllWritten (gates_of listing.now)
        → Written text.old (export_of listing.now) text.new result }
{
    if table.len() < LEAST_WORK {
        return 0;
    }
    if MOST_LABELS < input_count(listing) {
        return 0;
    }
    if MOST_GATES < gate_count(listing) {
        return 0;
    }
    clear(table);
    write_parts(listing, table, text)
}

// The export with buffers that are long enough, without clearing the working memory.
fn export_uncleared(listing: &[u8], out: &mut [u8], work: &mut [u8]) -> Result<usize, Refusal>
    requires { (most_text ≤ length out.old) × (most_wires ≤ length work.old) }
    ensures value { result ≡ exported_as listing.now (export_check_of listing.now) }
    ensures out_after { out.new ≡ out_after listing.now (export_check_of listing.now) out.old }
{
    check_export(listing, work)?;
    Ok(write_text(listing, work, out))
}

// The export of a listing. The text starts the output buffer; the other buffer is working memory.
pub fn export(listing: &[u8], out: &mut [u8], work: &mut [u8]) -> Result<usize, Refusal>
    ensures answer { let lent = out ∷ work ∷ [] in
        result ≡ export_answer listing.now (first_bytes lent) }
    ensures bytes { let lent = out ∷ work ∷ [] in
        last_bytes lent ≡ export_bytes listing.now (first_bytes lent) }
{
    if out.len() < MOST_TEXT || work.len() < LEAST_WORK {
        return Err(TOO_SHORT);
    }
    let answer = export_uncleared(listing, out, work);
    clear(work);
    answer
}
