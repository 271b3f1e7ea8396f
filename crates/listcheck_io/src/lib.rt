// What listcheck does (02, ticket 3): a listing is read from an input and checked, and a line is written to an output.
// Believe: specs/Printing.
// Main theorem: same_line (proofs/Theorems/Longest), that reading no more bytes loses nothing.
// Called by the program listcheck.
#![tactic(auto)]

ghost use Rattle.std.specs.Prelude.{◌≤◌, ◌≡◌, length, take, OnOk};
ghost use Rattle.streams.specs.Streamed.{TakesFirst, WritesAnswer, WritesPart};
ghost use Rattle.wirelist_lines.specs.Least.{refusal_bytes};
ghost use Rattle.text.specs.Written.{Written};
ghost use Rattle.listcheck_io.specs.Printing.{most_read, answer_line, checked_line};

use listing::MOST_BYTES;
use listing_check::{LEAST_WORK, ListingSizes, check_listing};
use refusals::{Refusal, number_of, place_of};
use std::io;
use std::io::{Read, Write};
use streams::{Answers, answer_input};
use text::Writer;
use wirelist_lines::{REFUSAL_BYTES, write_refusal};

// One byte more than the longest listing has.
const MOST_READ: usize = MOST_BYTES + 1;

// The line for an accepted listing.
const ACCEPTED: &[u8] = b"accepted\n";

// The line for an answer. Why this stands in three crates: write_answer of wirelist_io.
fn write_answer(answer: Result<ListingSizes, Refusal>, text: &mut [u8]) -> usize
    ensures written { Written text.old (answer_line answer) text.new result }
    ensures answer_len_bound { length (answer_line answer) ≤ refusal_bytes }
{
    match answer {
        Ok(_) => {
            let mut out = Writer::new(text);
            out.put_bytes(ACCEPTED);
            out.at
        }
        Err(refusal) => write_refusal(number_of(refusal), place_of(refusal), text),
    }
}

// The line that listcheck prints for a listing is written from the start of the text, as much of it as that holds; answers how many
// bytes. A text that holds the line of every refusal holds it whole.
pub fn print_line(listing: &[u8], text: &mut [u8]) -> usize
    ensures written { Written text.old (checked_line listing.now) text.new result }
    ensures listing_len_bound { length (checked_line listing.now) ≤ refusal_bytes }
{
    let mut work = [0u8; LEAST_WORK];
    let answer = check_listing(listing, &mut work);
    write_answer(answer, text)
}

// The same with a text that holds it: the bytes before the number that it answers are all that is printed.
fn print_all(listing: &[u8], text: &mut [u8; REFUSAL_BYTES]) -> usize
    ensures text_after { take result text.new ≡ checked_line listing.now }
    ensures upper_bound { result ≤ length text.new }
{
    print_line(listing, text)
}

// What listcheck answers a listing with.
#[derive(Clone, Copy)]
struct Listcheck;

impl Answers for Listcheck {
    ghost answer = { checked_line };

    ghost most_written = { refusal_bytes };

    fn put_answer(&self, listing: &[u8], text: &mut [u8]) -> usize {
        match text.first_chunk_mut::<REFUSAL_BYTES>() {
            Some(text) => print_all(listing, text),
            None => 0,
        }
    }
}

// Reads a listing, checks it and prints its line. Where a read fails, what was read until then is taken for the whole, and the error
// is answered when that is printed.
pub fn print_check<R: Read, W: Write>(input: &mut R, output: &mut W) -> io::Result<()>
    ensures whole { OnOk result (WritesAnswer checked_line (R.remaining input.old) (W.contents output.old) (W.contents output.new)) }
    ensures taken { TakesFirst most_read result (R.remaining input.old) (R.remaining input.new) }
    ensures part { WritesPart checked_line (R.remaining input.old) (W.contents output.old) (W.contents output.new) }
{
    let mut listing = [0u8; MOST_READ];
    let mut text = [0u8; REFUSAL_BYTES];
    answer_input(&Listcheck, input, output, &mut listing, &mut text)
}
