// What wirelist does (01, "Listing"): a program file is read from an input and run, and its text is written to an output.
// Believe: specs/Printing.
// Main theorems: printed_finished and printed_refused (proofs/Theorems/Printed), same_text (proofs/Theorems/Longest).
// Called by the program wirelist.
#![tactic(auto)]

ghost use Rattle.std.specs.Prelude.{◌≤◌, length, OnOk};
ghost use Rattle.streams.specs.Streamed.{TakesFirst, WritesAnswer, WritesPart};
ghost use Rattle.wirelist_lines.specs.Least.{least_text};
ghost use Rattle.text.specs.Written.{Written};
ghost use Rattle.wirelist_io.specs.Printing.{most_read, printed};
ghost use Rattle.wirelist_io.specs.Answered.{answer_text, RefusalFits};

use program::format::SIZES;
use refusals::{Refusal, number_of, place_of};
use rules::sizes::{MOST_LABELS, MOST_TERMS, MOST_TYPES};
use run::run;
use run_answers::Finished;
use std::io;
use std::io::{Read, Write};
use streams::{Answers, answer_input};
use wirelist_lines::{LEAST_TEXT, write_lines, write_refusal};

// 01: "reads at most 7,879 bytes of a program file" and "runs it with limit 1,000,000".
const MOST_READ: usize = SIZES + 3 * (MOST_LABELS + MOST_TYPES + MOST_TERMS) + 1;

const LIMIT: u32 = 1000000;

// No buffer of a run has a greater least length.
const LARGE: usize = 65536;

// The text for an answer of a run and its output buffer. listcheck_io and openqasm_io each have a write_answer too: a refusal gives the same
// line in all three, and that is the one call of write_refusal; what is accepted gives another text by another definition.
fn write_answer(answer: Result<Finished, Refusal>, out: &[u8], text: &mut [u8]) -> usize
    ensures written { Written text.old (answer_text answer out.now) text.new result }
    ensures refusal_fits { RefusalFits answer }
{
    match answer {
        Ok(finished) => write_lines(out, finished.steps, text),
        Err(refusal) => {
            let number = number_of(refusal);
            let place = place_of(refusal);
            write_refusal(number, place, text)
        }
    }
}

// All that wirelist prints for a program file is written from the start of the text, as much of it as that holds; answers
// how many bytes. A text of the least length holds it whole.
pub fn print_text(file: &[u8], text: &mut [u8]) -> usize
    ensures written { Written text.old (printed file.now) text.new result }
    ensures file_len_bound { length (printed file.now) ≤ least_text }
{
    let mut out = [0u8; LARGE];
    let mut nodes = [0u8; LARGE];
    let mut stack = [0u8; LARGE];
    let mut types = [0u8; LARGE];
    let mut frames = [0u8; LARGE];
    let mut gates = [0u8; LARGE];
    let mut circuits = [0u8; LARGE];
    let mut results0 = [0u8; LARGE];
    let mut results1 = [0u8; LARGE];
    let mut results2 = [0u8; LARGE];
    let mut results3 = [0u8; LARGE];
    let answer = run(
        file,
        LIMIT,
        &mut out,
        &mut nodes,
        &mut stack,
        &mut types,
        &mut frames,
        &mut gates,
        &mut circuits,
        &mut results0,
        &mut results1,
        &mut results2,
        &mut results3,
    );
    write_answer(answer, &out, text)
}

// What wirelist answers a program file with.
#[derive(Clone, Copy)]
struct Wirelist;

impl Answers for Wirelist {
    ghost answer = { printed };

    ghost most_written = { least_text };

    fn put_answer(&self, file: &[u8], text: &mut [u8]) -> usize {
        print_text(file, text)
    }
}

// Reads a program file, runs it and prints its text. Where a read fails, what was read until then is taken for the whole, and the
// error is answered when that is printed.
pub fn print_run<R: Read, W: Write>(input: &mut R, output: &mut W) -> io::Result<()>
    ensures whole { OnOk result (WritesAnswer printed (R.remaining input.old) (W.contents output.old) (W.contents output.new)) }
    ensures taken { TakesFirst most_read result (R.remaining input.old) (R.remaining input.new) }
    ensures part { WritesPart printed (R.remaining input.old) (W.contents output.old) (W.contents output.new) }
{
    let mut file = [0u8; MOST_READ];
    let mut text = [0u8; LEAST_TEXT];
    answer_input(&Wirelist, input, output, &mut file, &mut text)
}
