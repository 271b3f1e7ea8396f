// The reader of program files (01, "Program file" and "When each operation says no", Read).
// Believe: specs/Format, Traversal and Reading; specs/Encoding has the file of a program, specs/Parts the kinds of types and terms with
// the number of their parts, specs/CaseFiles the files of c1 to c12.
// Main theorems: read_sound and read_complete (proofs/Theorems/Accepting), a file is accepted exactly if a program stands in it.
// Called by the check, by loading (the accessors of src/format.rt) and by cabinet.
#![tactic(auto)]

mod file;
pub mod format;
pub mod traversal;
pub mod wires;

ghost use Rattle.std.specs.Prelude.{◌≡◌};
ghost use Rattle.program.specs.Reading.{read_scope, read_whole, read_kinds, read_of};
ghost use Rattle.program.specs.Sized.{sizes_fit};

use crate::file::File;
use crate::format::{LABELS, SIZES, Sizes, TERMS, TYPES};
use crate::traversal::{Halt, traverse};
use refusals::Refusal;
use rules::sizes::{MOST_LABELS, MOST_TERMS, MOST_TYPES};
use words::word_at;

// The refusal of form with this number and place.
fn form(number: usize, place: usize) -> Refusal
    ensures { result ≡ Refusal.Form number place }
{
    Refusal::Form { number, place }
}

impl File<'_> {
    // Refusal 9, or the file is accepted.
    pub(crate) fn read_scope(&self) -> Result<Sizes, Refusal>
        ensures { result ≡ read_scope self.now.bytes.now }
    {
        match traverse(
            &|x, b| self.scope_parts(x, b),
            self.entry_count(),
            self.first_term(),
            0,
        ) {
            Ok(_) => Ok(self.sizes),
            Err(Halt::Stopped(e)) => Err(form(9, e)),
            Err(Halt::Out) => Ok(self.sizes),
        }
    }

    // Refusal 8, or the test after it.
    pub(crate) fn read_whole(&self) -> Result<Sizes, Refusal>
        ensures { result ≡ read_whole self.now.bytes.now }
    {
        let start = self.first_term();
        let end = self.entry_count();
        match traverse(&|x, b| self.whole_parts(x, b), end, start, 0) {
            Ok(e) if e == end => self.read_scope(),
            Ok(e) => Err(form(8, e)),
            Err(Halt::Stopped(e)) => Err(form(8, e)),
            Err(Halt::Out) => Err(form(8, end)),
        }
    }

    // Refusals 4 to 7, or the tests after them. Each test covers the whole file before the next.
    pub(crate) fn read_entries(&self) -> Result<Sizes, Refusal>
        ensures { result ≡ read_kinds self.now.bytes.now }
    {
        let end = self.entry_count();
        if let Some(e) = (0..end).find(|&e| self.kind_wrong(e)) {
            return Err(form(4, e));
        }
        if let Some(e) = (0..end).find(|&e| self.argument_wrong(e)) {
            return Err(form(5, e));
        }
        if let Some(e) = (self.sizes.labels..self.first_term()).find(|&e| self.type_wrong(e)) {
            return Err(form(6, e));
        }
        if let Some(e) = (0..end).find(|&e| self.wires_wrong(e)) {
            return Err(form(7, e));
        }
        self.read_whole()
    }
}

// Whether each size is in its range.
fn sizes_fit(s: Sizes) -> bool
    ensures { result ≡ sizes_fit s }
{
    s.labels <= MOST_LABELS && s.types <= MOST_TYPES && 1 <= s.terms && s.terms <= MOST_TERMS
}

// Reads a program file: its sizes if it is accepted, else refusal 1 to 9.
pub fn read(file: &[u8]) -> Result<Sizes, Refusal>
    ensures { result ≡ read_of file.now }
{
    if file.len() < SIZES {
        return Err(form(1, 0));
    }
    let s = Sizes {
        labels: word_at(file, LABELS),
        types: word_at(file, TYPES),
        terms: word_at(file, TERMS),
    };
    if !sizes_fit(s) {
        return Err(form(2, 0));
    }
    if file.len() != SIZES + 3 * (s.labels + s.types + s.terms) {
        return Err(form(3, 0));
    }
    File {
        bytes: file,
        sizes: s,
    }
    .read_entries()
}
