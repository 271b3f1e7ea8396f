// Bindings of the scope, and the entries that name them.
ghost use Rattle.std.specs.Prelude.{◌≡◌, ◌<◌};
ghost use Rattle.words.specs.Words.{words};
ghost use Rattle.program.specs.Format.{argument_at};
ghost use Rattle.check_program.specs.Layout.{binding_uses, type_cell};
ghost use Rattle.check_program.specs.Scope.{pushed};
ghost use Rattle.check_program.specs.Inferring.{entered, binding_at, SaysUsed, SaysUsedWrongly, SaysCrosses, SaysBetween};

use crate::Typed;
use crate::layout::{GATE_CELLS, LABEL_BINDINGS, SCOPE};
use crate::place::TermPlace;
use check_types::{cell_first, cell_kind, cell_second, is_copyable, new_cell, pair_parts};
use program::format::{TYPES, argument_at, kind_at};
use rules::kinds::{ABSTRACTION, LABEL, LET};
use words::{put, word_at};

// The cell of the type that entry e names.
#[tactic(auto, using(check_types::proofs::Laws::GateCells::gate_cells_lem))]
pub(crate) fn named_cell(file: &[u8], e: usize) -> usize
    ensures { result ≡ type_cell file.now (argument_at file.now e) }
{
    GATE_CELLS + word_at(file, TYPES).saturating_sub(argument_at(file, e) + 1)
}

// The binding of the variable or label at a place.
#[tactic(auto, unfolding(crate::specs::Inferring::binding_at))]
pub(crate) fn binding_at(file: &[u8], at: TermPlace) -> usize
    ensures { result ≡ binding_at file.now at.entry at.binders }
{
    let n = argument_at(file, at.entry);
    if kind_at(file, at.entry) == LABEL {
        return n;
    }
    LABEL_BINDINGS + at.binders.saturating_sub(n + 1)
}

// The place of the 18 of a use, of what is bound under so many lifts.
pub(crate) fn crossing_at(work: &[u8], cell: usize, bound: usize, at: TermPlace) -> Option<usize>
    ensures { SaysCrosses (words work.now) cell bound at.lifts at.entry result }
{
    if at.lifts <= bound {
        return None;
    }
    if is_copyable(work, cell) {
        return None;
    }
    Some(at.entry)
}

// What binding i holds is used at a place.
pub(crate) fn use_binding(work: &mut [u8], i: usize, at: TermPlace, cells: usize) -> Typed
    requires { (i < 65536) × (binding_uses (words work.old) i < 65535) }
    ensures { SaysUsed (words work.old) (words work.new) i at.entry at.lifts cells result }
{
    let slot = SCOPE + i;
    let cell = cell_kind(work, slot);
    let crossing = crossing_at(work, cell, cell_first(work, slot), at);
    let uses = cell_second(work, slot);
    put(work, 4 * slot + 2, uses + 1);
    Typed {
        cell,
        next: at.entry + 1,
        cells,
        unused: None,
        crossing,
    }
}

// The place of the 17 of the binder in binding i, whose node is at entry e.
pub(crate) fn misuse_at(work: &[u8], i: usize, e: usize) -> Option<usize>
    requires { i < 65536 }
    ensures { SaysUsedWrongly (words work.now) i e result }
{
    if cell_second(work, SCOPE + i) == 1 {
        return None;
    }
    if is_copyable(work, cell_kind(work, SCOPE + i)) {
        return None;
    }
    Some(e)
}

// Pushes a binder: its binding gets the cell of its type and the lifts around it, and has no uses.
#[tactic(auto, using(check_types::proofs::Laws::NewCell::cell_put))]
pub(crate) fn push(work: &mut [u8], binders: usize, cell: usize, lifts: usize)
    requires { binders < 65537 }
    ensures { words work.new ≡ pushed (words work.old) binders cell lifts }
{
    new_cell(work, SCOPE + (LABEL_BINDINGS + binders), cell, lifts, 0, 0);
}

// Before the first part of a node: an abstraction pushes its binder.
#[tactic(auto, unfolding(crate::specs::Inferring::entered))]
pub(crate) fn enter(file: &[u8], work: &mut [u8], at: TermPlace)
    ensures { words work.new ≡ entered file.now (words work.old) at.entry at.binders at.lifts }
{
    if kind_at(file, at.entry) == ABSTRACTION {
        push(work, at.binders, named_cell(file, at.entry), at.lifts);
    }
}

// Before the second part of a node, whose first part has the type of a cell: a let pushes a binder for each half of the
// pair. The answer is whether the second part is to be looked at.
pub(crate) fn between(file: &[u8], work: &mut [u8], at: TermPlace, cell: usize) -> bool
    ensures { SaysBetween file.now (words work.old) (words work.new) at.entry at.binders at.lifts cell result }
{
    if kind_at(file, at.entry) != LET {
        return true;
    }
    let Some((first, second)) = pair_parts(work, cell) else {
        return false;
    };
    push(work, at.binders, first, at.lifts);
    push(work, at.binders + 1, second, at.lifts);
    true
}
