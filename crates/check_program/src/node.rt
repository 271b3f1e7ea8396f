// The rules of nodes, and their ends.
ghost use Rattle.std.specs.Prelude.{◌≡◌};
ghost use Rattle.words.specs.Words.{words};
ghost use Rattle.check_program.specs.Inferring.{no_rule, concludes, SaysOneRule, SaysMisuseAtAbstraction, EndsOne};
ghost use Rattle.check_program.specs.Inferring.{SaysTwoRule, SaysMisuseAtLet, EndsTwo};

use crate::Typed;
use crate::bindings::{misuse_at, named_cell};
use crate::layout::LABEL_BINDINGS;
use crate::place::TermPlace;
use check_types::{
    Ruling, abstraction_type, application_type, apply_type, box_type, force_type, lift_type,
    pair_type,
};
use program::format::kind_at;
use refusals::Refusal;
use rules::kinds::{ABSTRACTION, APPLICATION, APPLY, FORCE, LET, LIFT, PAIR};

// The refusal of a node whose rule gives no type.
pub(crate) fn no_rule(e: usize) -> Refusal
    ensures { result ≡ no_rule e }
{
    Refusal::Typing {
        number: 16,
        place: e,
    }
}

// What a rule's answer makes of the node at entry e.
pub(crate) fn conclude(
    ruling: Option<Ruling>,
    e: usize,
    next: usize,
    unused: Option<usize>,
    crossing: Option<usize>,
) -> Result<Typed, Refusal>
    ensures { result ≡ concludes ruling e next unused crossing }
{
    let Ruling { cell, cells } = ruling.ok_or(no_rule(e))?;
    Ok(Typed {
        cell,
        next,
        cells,
        unused,
        crossing,
    })
}

// The rule of a node of one part, whose part has the type of a cell.
pub(crate) fn one_rule(
    file: &[u8],
    work: &mut [u8],
    e: usize,
    cells: usize,
    cell: usize,
) -> Option<Ruling>
    ensures { SaysOneRule file.now (words work.old) (words work.new) e cells cell result }
{
    match kind_at(file, e) {
        LIFT => lift_type(work, cells, cell),
        FORCE => force_type(work, cells, cell),
        ABSTRACTION => abstraction_type(work, cells, named_cell(file, e), cell),
        _ => box_type(work, cells, named_cell(file, e), cell),
    }
}

// The 17 of a node of one part itself.
pub(crate) fn misuse_at_abstraction(file: &[u8], work: &[u8], at: TermPlace) -> Option<usize>
    ensures { SaysMisuseAtAbstraction file.now (words work.now) at.entry at.binders result }
{
    if kind_at(file, at.entry) == ABSTRACTION {
        return misuse_at(work, LABEL_BINDINGS + at.binders, at.entry);
    }
    None
}

// The end of a node of one part.
pub(crate) fn finish_one(
    file: &[u8],
    work: &mut [u8],
    at: TermPlace,
    part: Typed,
) -> Result<Typed, Refusal>
    ensures { EndsOne file.now (words work.old) (words work.new) at.entry at.binders part result }
{
    let own = misuse_at_abstraction(file, work, at);
    let ruling = one_rule(file, work, at.entry, part.cells, part.cell);
    conclude(
        ruling,
        at.entry,
        part.next,
        own.or(part.unused),
        part.crossing,
    )
}

// The rule of a node of two parts, whose parts have the types of two cells.
pub(crate) fn two_rule(
    file: &[u8],
    work: &mut [u8],
    e: usize,
    cells: usize,
    first: usize,
    second: usize,
) -> Option<Ruling>
    ensures { SaysTwoRule file.now (words work.old) (words work.new) e cells first second result }
{
    match kind_at(file, e) {
        APPLICATION => application_type(work, cells, first, second),
        PAIR => pair_type(work, cells, first, second),
        APPLY => apply_type(work, cells, first, second),
        _ => Some(Ruling {
            cell: second,
            cells,
        }),
    }
}

// The 17 of a node of two parts itself.
pub(crate) fn misuse_at_let(file: &[u8], work: &[u8], at: TermPlace) -> Option<usize>
    ensures { SaysMisuseAtLet file.now (words work.now) at.entry at.binders result }
{
    if kind_at(file, at.entry) == LET {
        let first = misuse_at(work, LABEL_BINDINGS + at.binders, at.entry);
        let second = misuse_at(work, LABEL_BINDINGS + (at.binders + 1), at.entry);
        return first.or(second);
    }
    None
}

// The end of a node of two parts.
pub(crate) fn finish_two(
    file: &[u8],
    work: &mut [u8],
    at: TermPlace,
    first: Typed,
    second: Typed,
) -> Result<Typed, Refusal>
    ensures { EndsTwo file.now (words work.old) (words work.new) at.entry at.binders first second result }
{
    let own = misuse_at_let(file, work, at);
    let ruling = two_rule(file, work, at.entry, second.cells, first.cell, second.cell);
    let unused = own.or(first.unused.or(second.unused));
    let crossing = first.crossing.or(second.crossing);
    conclude(ruling, at.entry, second.next, unused, crossing)
}
