// The check of a whole file that the reader has accepted.
ghost use Rattle.std.specs.Prelude.{◌≡◌, ◌≤◌, length};
ghost use Rattle.words.specs.Words.{words};
ghost use Rattle.check_program.specs.Lengths.{least_work};
ghost use Rattle.rules.specs.Sizes.{most_labels};
ghost use Rattle.check_program.specs.Loading.{bindings_loaded};
ghost use Rattle.check_program.specs.Deciding.{wrong_use, settled, decided_as};
ghost use Rattle.check_program.specs.ProgramTypes.{Readable, SaysFile};

use crate::Typed;
use crate::infer::infer;
use crate::layout::{LABEL_BINDINGS, SCOPE};
use crate::place::TermPlace;
use check_types::{cell_second, load_gates, load_types, new_cell};
use program::format::kind_at;
use refusals::Refusal;

// Writes the bindings of the labels. The cells 0 and 1 are Bit and Qubit, as their kinds are.
#[tactic(auto, using(check_types::proofs::Laws::NewCell::cell_put), unfolding(crate::specs::Loading::bindings_loaded))]
pub(crate) fn load_labels(file: &[u8], work: &mut [u8])
    ensures { words work.new ≡ bindings_loaded file.now (words work.old) most_labels }
{
    for i in 0..LABEL_BINDINGS {
        new_cell(work, SCOPE + i, kind_at(file, i), 0, 0, 0);
    }
}

// The first label that is not used exactly once.
#[tactic(auto, using(crate::proofs::Laws::Deciding::wrong_here, crate::proofs::Laws::Deciding::right_here))]
pub(crate) fn wrong_label(work: &[u8], labels: usize) -> Option<usize>
    requires { labels ≤ most_labels }
    ensures { result ≡ wrong_use (words work.now) 0 labels }
{
    for i in 0..labels {
        if cell_second(work, SCOPE + i) != 1 {
            return Some(i);
        }
    }
    None
}

// The answer for a program that has a type, with its first 17 and 18.
pub(crate) fn settle(
    cell: usize,
    unused: Option<usize>,
    crossing: Option<usize>,
) -> Result<usize, Refusal>
    ensures { result ≡ settled cell unused crossing }
{
    if let Some(place) = unused {
        return Err(Refusal::Typing { number: 17, place });
    }
    if let Some(place) = crossing {
        return Err(Refusal::Typing { number: 18, place });
    }
    Ok(cell)
}

// The answer for a program whose term has a type: 17, labels first, then 18.
pub(crate) fn decide(work: &[u8], labels: usize, found: Typed) -> Result<usize, Refusal>
    requires { labels ≤ most_labels }
    ensures { result ≡ decided_as (words work.now) labels found }
{
    let wrong = wrong_label(work, labels);
    settle(found.cell, wrong.or(found.unused), found.crossing)
}

// The check of an accepted file with so many labels and types.
pub(crate) fn check_file(
    file: &[u8],
    work: &mut [u8],
    labels: usize,
    types: usize,
) -> Result<usize, Refusal>
    requires { Readable file.now labels types × (least_work ≤ length work.old) }
    ensures { SaysFile file.now (words work.new) result }
{
    let gates = load_gates(work);
    let start = 6 + labels;
    let end = start + types;
    let cells = load_types(work, gates, &file[start..end]);
    load_labels(file, work);
    let at = TermPlace {
        entry: labels + types,
        binders: 0,
        lifts: 0,
    };
    let found = infer(file, work, at, cells)?;
    decide(work, labels, found)
}
