// The inference (01, "Typing"): the type of a term on bytes, with the first 16, 17 and 18. The file and the memory stay two
// parameters: in one value each contract would also have to say that the file is as it was.
ghost use Rattle.std.specs.Prelude.{◌≡◌, ◌+◌, Ok, None};
ghost use Rattle.rules.specs.Parts.{parts_of_kind};
ghost use Rattle.words.specs.Words.{words};
ghost use Rattle.program.specs.Format.{kind_at};
ghost use Rattle.check_program.specs.Inferring.{typed_as, Possible, Meets};

use crate::Typed;
use crate::bindings::{between, binding_at, enter, use_binding};
use crate::node::{finish_one, finish_two, no_rule};
use crate::place::TermPlace;
use check_types::{CELL_OF_UNIT, gate_cell};
use program::format::{argument_at, kind_at};
use refusals::Refusal;
use rules::kinds::{GATE, UNIT_VALUE};
use rules::parts::parts_of_kind;

// What is found in a leaf that uses no binding.
fn constant(cell: usize, at: TermPlace, cells: usize) -> Typed
    ensures { result ≡ typed_as cell (at.entry + 1) cells None None }
{
    Typed {
        cell,
        next: at.entry + 1,
        cells,
        unused: None,
        crossing: None,
    }
}

// A variable, a label, a gate or unit's value at a place.
pub(crate) fn leaf(file: &[u8], work: &mut [u8], at: TermPlace, cells: usize) -> Typed
    requires { Possible file.now (words work.old) at.entry at.binders at.lifts cells × (parts_of_kind (kind_at file.now at.entry) ≡ 0) }
    ensures { Meets file.now (words work.old) (words work.new) at.entry at.binders at.lifts cells (Ok result) }
{
    match kind_at(file, at.entry) {
        GATE => constant(gate_cell(argument_at(file, at.entry)), at, cells),
        UNIT_VALUE => constant(CELL_OF_UNIT, at, cells),
        _ => use_binding(work, binding_at(file, at), at, cells),
    }
}

// The term at a place, where there are so many cells. It calls itself for the parts: as deep as the term is, at most 2,048
// levels, of 288 bytes of stack each as measured.
pub(crate) fn infer(
    file: &[u8],
    work: &mut [u8],
    at: TermPlace,
    cells: usize,
) -> Result<Typed, Refusal>
    requires { Possible file.now (words work.old) at.entry at.binders at.lifts cells }
    ensures { Meets file.now (words work.old) (words work.new) at.entry at.binders at.lifts cells result }
{
    let kind = kind_at(file, at.entry);
    let parts = parts_of_kind(kind);
    if parts == 0 {
        return Ok(leaf(file, work, at, cells));
    }
    enter(file, work, at);
    let first = infer(file, work, at.inside(kind), cells)?;
    if parts == 1 {
        return finish_one(file, work, at, first);
    }
    if !between(file, work, at, first.cell) {
        return Err(no_rule(at.entry));
    }
    let second = infer(file, work, at.after(kind, first.next), first.cells)?;
    finish_two(file, work, at, first, second)
}
