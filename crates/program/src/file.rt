// A program file whose sizes and length are right (01, refusals 1 to 3), and the tests on single entries (4 and 5).
ghost use Rattle.std.specs.Prelude.{◌≡◌};
ghost use Rattle.program.specs.Format.{first_term, entry_count, kind_at, shape_at};
ghost use Rattle.program.specs.Sized.{Sized};
ghost use Rattle.program.specs.ArgumentRules.{rule_of};
ghost use Rattle.program.specs.Reading.{kind_wrong, argument_wrong};

use crate::format::{
    Argument, Shape, Sizes, argument_at, kind_at, label_rule, rule_allows, term_rule, type_rule,
};
use rules::parts::parts_of_kind;

// The bytes of a file and the sizes at its start: what the tests from 4 on read.
#[derive(Clone, Copy)]
pub(crate) struct File<'a> {
    pub(crate) bytes: &'a [u8],
    pub(crate) sizes: Sizes,
    pub ghost sized: { Sized bytes.now sizes },
}

impl File<'_> {
    // The first term entry.
    pub(crate) fn first_term(&self) -> usize
        ensures { result ≡ first_term self.now.bytes.now }
    {
        self.sizes.labels + self.sizes.types
    }

    // How many entries there are.
    pub(crate) fn entry_count(&self) -> usize
        ensures { result ≡ entry_count self.now.bytes.now }
    {
        self.first_term() + self.sizes.terms
    }

    // The rule of entry e, which has this kind, by its section.
    #[tactic(auto, using(crate::proofs::Laws::Kinds::section_shapes))]
    pub(crate) fn rule_at(&self, e: usize, kind: usize) -> Option<Argument>
        requires { kind ≡ kind_at self.now.bytes.now e }
        ensures { result ≡ rule_of (shape_at self.now.bytes.now e) }
    {
        if e < self.sizes.labels {
            return label_rule(kind);
        }
        if e < self.first_term() {
            return type_rule(kind);
        }
        term_rule(kind)
    }

    // The shape of entry e, which has this kind: its rule, and the parts of the kind. What needs no parts asks for the rule
    // alone.
    #[tactic(auto, using(crate::proofs::Laws::ArgumentRules::shape_of_rule))]
    pub(crate) fn shape_at(&self, e: usize, kind: usize) -> Option<Shape>
        requires { kind ≡ kind_at self.now.bytes.now e }
        ensures { result ≡ shape_at self.now.bytes.now e }
    {
        let argument = self.rule_at(e, kind)?;
        Some(Shape {
            parts: parts_of_kind(kind),
            argument,
        })
    }

    // Whether entry e has a kind that is not of its section.
    #[tactic(auto, using(crate::proofs::Laws::ArgumentRules::known_by_rule), unfolding(crate::specs::Reading::kind_wrong))]
    pub(crate) fn kind_wrong(&self, e: usize) -> bool
        ensures { result ≡ kind_wrong self.now.bytes.now e }
    {
        self.rule_at(e, kind_at(self.bytes, e)).is_none()
    }

    // Whether entry e has an argument that is not allowed.
    #[tactic(auto, using(crate::proofs::Laws::ArgumentRules::allows_by_rule), unfolding(crate::specs::Reading::argument_wrong))]
    pub(crate) fn argument_wrong(&self, e: usize) -> bool
        ensures { result ≡ argument_wrong self.now.bytes.now e }
    {
        let rule = self.rule_at(e, kind_at(self.bytes, e));
        !rule_allows(self.sizes, rule, argument_at(self.bytes, e))
    }
}
