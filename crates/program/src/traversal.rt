// Traversals over entries that stand in preorder.
ghost use Rattle.std.specs.Prelude.{◌≡◌, ℕ, ◌+◌, ◌*◌, ◌^◌, ◌<◌, ◌≤◌, List, IfOk};
ghost use Rattle.program.specs.Reading.{runs_out};
ghost use Rattle.program.specs.PartsUnder.{parts_under};
ghost use Rattle.program.specs.Traversal.{Subject, End, parts_of, wire_parts, scope_parts, parts_at};
ghost use Rattle.program.specs.Reach.{PartsFit, TraversedOf};
ghost use Rattle.program.specs.declared.traversal.Parts.{Parts};

use crate::file::File;
use crate::format::{Shape, argument_at, kind_at};
use rules::kinds::{ABSTRACTION, BIT, LET, PAIR_TYPE, UNIT, VARIABLE};
use rules::parts::parts_of_kind;

// The parts that an entry waits for, each with the number of binders around it, or that the traversal stops there: one of four ways to go
// on, and no None, in the definitions too.
#[derive(Drop)]
pub enum Parts {
    Leaf,
    One(usize),
    Two(usize, usize),
    Stop,
}

// Why a traversal doesn't come to the end of its type or term: an entry stopped it, or the section ends before.
#[derive(Clone, Copy)]
pub enum Halt {
    Stopped(usize),
    Out,
}

// So many parts, the last under its own number of binders.
fn parts_under(parts: usize, binders: usize, last: usize) -> Parts
    ensures { result ≡ parts_under parts binders last }
{
    match parts {
        0 => Parts::Leaf,
        1 => Parts::One(last),
        _ => Parts::Two(binders, last),
    }
}

// The parts that follow an entry of this shape, each under the same number of binders.
pub(crate) fn parts_of(shape: Option<Shape>, binders: usize) -> Parts
    ensures { result ≡ parts_of shape binders }
{
    match shape {
        Some(Shape { parts, .. }) => parts_under(parts, binders, binders),
        None => Parts::Stop,
    }
}

// The parts of a wire type's entry; the traversal stops at a kind that no wire type has.
#[tactic(auto, unfolding(rules::specs::Parts::parts_of_kind))]
pub(crate) fn wire_parts(kind: usize) -> Parts
    ensures { result ≡ wire_parts kind }
{
    match kind {
        BIT..=PAIR_TYPE => parts_under(parts_of_kind(kind), 0, 0),
        UNIT => parts_under(parts_of_kind(kind), 0, 0),
        _ => Parts::Stop,
    }
}

// Whether a traversal came to the end of the section before.
pub(crate) fn runs_out(w: Result<usize, Halt>) -> bool
    ensures { result ≡ runs_out w }
{
    matches!(w, Err(Halt::Out))
}

impl File<'_> {
    // The parts of a term's entry, with the binders around each; the traversal stops at a variable with no binder.
    #[tactic(auto, unfolding(rules::specs::Parts::parts_of_kind))]
    pub(crate) fn scope_parts(&self, e: usize, binders: usize) -> Parts
        requires { binders + 2 < 2 ^ 64 }
        ensures { result ≡ scope_parts self.now.bytes.now e binders }
    {
        let kind = kind_at(self.bytes, e);
        match kind {
            VARIABLE => {
                if argument_at(self.bytes, e) < binders {
                    return parts_under(parts_of_kind(kind), binders, binders);
                }
                Parts::Stop
            }
            ABSTRACTION => parts_under(parts_of_kind(kind), binders, binders + 1),
            LET => parts_under(parts_of_kind(kind), binders, binders + 2),
            _ => parts_of(self.shape_at(e, kind), binders),
        }
    }

    // The parts of any entry, each under the same number of binders.
    pub(crate) fn whole_parts(&self, e: usize, binders: usize) -> Parts
        ensures { result ≡ parts_at End self.now.bytes.now e binders }
    {
        parts_of(self.shape_at(e, kind_at(self.bytes, e)), binders)
    }
}

// Traverses one type or term from entry e on, in a section that ends before entry `end`: gives the entry behind its last. Of each entry
// `parts` says which parts it waits for, under so many binders.
pub(crate) fn traverse<F: Fn(usize, usize) -> Parts>(
    parts: &F,
    end: usize,
    e: usize,
    binders: usize,
) -> Result<usize, Halt>
    requires callable { (x b : ℕ) → x < end → b ≤ 2 * x → F.pre parts.now x b }
    requires fit { (x b : ℕ) (r : Parts) → F.post parts.now x b r → PartsFit (b + 2) r }
    requires few { binders ≤ 2 * e }
    ensures ends_later { IfOk result (λ m. e < m) }
    ensures reads { (subject : Subject) (f : List ℕ) → ((x b : ℕ) (r : Parts) → F.post parts.now x b r → r ≡ parts_at subject f x b)
        → TraversedOf subject f end e binders result }
{
    if end <= e {
        return Err(Halt::Out);
    }
    match parts(e, binders) {
        Parts::Leaf => Ok(e + 1),
        Parts::One(x) => traverse(parts, end, e + 1, x),
        Parts::Two(x, y) => {
            let m = traverse(parts, end, e + 1, x)?;
            traverse(parts, end, m, y)
        }
        Parts::Stop => Err(Halt::Stopped(e)),
    }
}
