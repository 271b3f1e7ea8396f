// What qasmout and qasmin do (02, ticket 4): a listing is read from an input and its OpenQASM text is written to an output, or a text
// is read and its listing is written; where it is refused, the line of the refusal.
// Believe: specs/Printing.
// Main theorems: same_export and same_import (proofs/Theorems/Longest), that reading no more bytes loses nothing.
// Called by the programs qasmout and qasmin.
#![tactic(auto)]

ghost use Rattle.std.specs.Prelude.{◌≤◌, ◌≡◌, length, take, OnOk};
ghost use Rattle.streams.specs.Streamed.{TakesFirst, WritesAnswer, WritesPart};
ghost use Rattle.listing.specs.Listing.{most_bytes};
ghost use Rattle.openqasm.specs.Layout.{most_text};
ghost use Rattle.openqasm_io.specs.Printing.{most_listing_read, most_text_read, exported_bytes, imported_bytes};
ghost use Rattle.openqasm_io.specs.Answered.{Ends};

use listing::MOST_BYTES;
use listing_check::LEAST_WORK;
use openqasm_export::{MOST_TEXT, export};
use openqasm_import::import;
use openqasm_parts::SLOTS_BYTES;
use refusals::{Refusal, number_of, place_of};
use std::io;
use std::io::{Read, Write};
use streams::{Answers, answer_input};
use wirelist_lines::write_refusal;

// One byte more than the longest listing has, and one more than the longest text.
const MOST_LISTING_READ: usize = MOST_BYTES + 1;

const MOST_TEXT_READ: usize = MOST_TEXT + 1;

// All that is printed for an answer is put at the start of the output buffer: what was converted stands there, and the line of a
// refusal is written; answers how many bytes. Why this stands in three crates: write_answer of wirelist_io.
fn write_answer(answer: Result<usize, Refusal>, out: &mut [u8]) -> usize
    ensures { Ends answer out.old out.new result }
{
    match answer {
        Ok(length) => length,
        Err(refusal) => write_refusal(number_of(refusal), place_of(refusal), out),
    }
}

// All that qasmout prints for a listing is written from the start of the output buffer; answers how many bytes.
pub fn print_export(listing: &[u8], out: &mut [u8; MOST_TEXT]) -> usize
    ensures out_after { take result out.new ≡ exported_bytes listing.now }
    ensures upper_bound { result ≤ length out.new }
{
    let mut work = [0u8; LEAST_WORK];
    let answer = export(listing, out, &mut work);
    write_answer(answer, out)
}

// The same of what qasmin prints for a text.
pub fn print_import(text: &[u8], out: &mut [u8; MOST_BYTES]) -> usize
    ensures out_after { take result out.new ≡ imported_bytes text.now }
    ensures upper_bound { result ≤ length out.new }
{
    let mut slots = [0u8; SLOTS_BYTES];
    let mut listing = [0u8; MOST_BYTES];
    let mut table = [0u8; LEAST_WORK];
    let mut exported = [0u8; MOST_TEXT];
    let answer = import(
        text,
        out,
        &mut slots,
        &mut listing,
        &mut table,
        &mut exported,
    );
    write_answer(answer, out)
}

// What qasmout answers a listing with.
#[derive(Clone, Copy)]
struct Qasmout;

impl Answers for Qasmout {
    ghost answer = { exported_bytes };

    ghost most_written = { most_text };

    fn put_answer(&self, listing: &[u8], out: &mut [u8]) -> usize {
        match out.first_chunk_mut::<MOST_TEXT>() {
            Some(out) => print_export(listing, out),
            None => 0,
        }
    }
}

// What qasmin answers a text with.
#[derive(Clone, Copy)]
struct Qasmin;

impl Answers for Qasmin {
    ghost answer = { imported_bytes };

    ghost most_written = { most_bytes };

    fn put_answer(&self, text: &[u8], out: &mut [u8]) -> usize {
        match out.first_chunk_mut::<MOST_BYTES>() {
            Some(out) => print_import(text, out),
            None => 0,
        }
    }
}

// Reads a listing and prints its text. Where a read fails, what was read until then is taken for the whole, and the error is answered
// when that is printed.
pub fn export_all<R: Read, W: Write>(input: &mut R, output: &mut W) -> io::Result<()>
    ensures whole { OnOk result (WritesAnswer exported_bytes (R.remaining input.old) (W.contents output.old) (W.contents output.new)) }
    ensures taken { TakesFirst most_listing_read result (R.remaining input.old) (R.remaining input.new) }
    ensures part { WritesPart exported_bytes (R.remaining input.old) (W.contents output.old) (W.contents output.new) }
{
    let mut listing = [0u8; MOST_LISTING_READ];
    let mut out = [0u8; MOST_TEXT];
    answer_input(&Qasmout, input, output, &mut listing, &mut out)
}

// Reads a text and prints its listing, in the same way.
pub fn import_all<R: Read, W: Write>(input: &mut R, output: &mut W) -> io::Result<()>
    ensures whole { OnOk result (WritesAnswer imported_bytes (R.remaining input.old) (W.contents output.old) (W.contents output.new)) }
    ensures taken { TakesFirst most_text_read result (R.remaining input.old) (R.remaining input.new) }
    ensures part { WritesPart imported_bytes (R.remaining input.old) (W.contents output.old) (W.contents output.new) }
{
    let mut text = [0u8; MOST_TEXT_READ];
    let mut out = [0u8; MOST_BYTES];
    answer_input(&Qasmin, input, output, &mut text, &mut out)
}
