// The check (01, "Typing" and "When each operation says no", Check).
// Believe: specs/Checking, Lengths, Answers, Places, Demand2 and Safe.
// Main theorem: check_means (proofs/Theorems/Checked), accepted exactly if the typing rules derive a type; 16, 17 and 18 in this
// order, each at the first such entry.
// Called by the run (program_type) and by cabinet (check).
#![tactic(auto)]

pub mod bindings;
pub mod file;
pub mod infer;
mod layout;
pub mod node;
mod place;

ghost use Rattle.std.specs.Prelude.{◌≡◌, [], ◌∷◌, ltb, length};
ghost use Rattle.check_program.specs.Lengths.{least_work};
ghost use Rattle.lent.specs.Lent.{first_bytes, last_bytes};
ghost use Rattle.check_program.specs.Answers.{check_of, check_answer, check_bytes};
ghost use Rattle.check_program.specs.ProgramTypes.{SaysProgramType};
ghost use Rattle.check_program.specs.Demand2.{CheckMeans};
ghost use Rattle.check_program.specs.Safe.{AcceptedIsSafe};

use check_types::write_type;
use file::check_file;
use layout::{LEAST_OUT, LEAST_WORK};
use program::format::Sizes;
use program::read;
use refusals::{Refusal, TOO_SHORT};
use words::clear;

// What is found in a term that has a type: the cell of the type, the entry after the term, the number of cells from then on, and
// the places of the first 17 and the first 18 in it.
#[derive(Clone, Copy)]
pub struct Typed {
    pub cell: usize,
    pub next: usize,
    pub cells: usize,
    pub unused: Option<usize>,
    pub crossing: Option<usize>,
}

// The check without its output: the cell of the program's type in the working memory, or a refusal. The memory is not
// cleared; too short, it is refused and not touched.
#[tactic(auto, using(crate::proofs::Laws::ProgramTypes::program_type_refused))]
pub fn program_type(file: &[u8], work: &mut [u8]) -> Result<usize, Refusal>
    ensures { SaysProgramType (ltb (length work.old) least_work) (check_of file.now) work.old work.new result }
{
    if work.len() < LEAST_WORK {
        return Err(TOO_SHORT);
    }
    let answer = read(file);
    let Ok(Sizes { labels, types, .. }) = answer else {
        return Err(answer.unwrap_err());
    };
    check_file(file, work, labels, types)
}

// The check: the type of a program file, in preorder at the start of the output buffer, and its length; or a refusal, 16, 17 and
// 18 at the first such entry of the file.
pub fn check(file: &[u8], out: &mut [u8], work: &mut [u8]) -> Result<usize, Refusal>
    ensures answer { let lent = out ∷ work ∷ [] in
        result ≡ check_answer file.now (first_bytes lent) }
    ensures bytes { let lent = out ∷ work ∷ [] in
        last_bytes lent ≡ check_bytes file.now (first_bytes lent) }
    ensures safety { AcceptedIsSafe file.now }
    ensures meaning { CheckMeans file.now }
{
    if out.len() < LEAST_OUT || work.len() < LEAST_WORK {
        return Err(TOO_SHORT);
    }
    let found = program_type(file, work);
    let Ok(cell) = found else {
        clear(work);
        return found;
    };
    let length = write_type(work, cell, out);
    clear(work);
    Ok(length)
}
