// Bytes, kinds and arguments of a program file (01, "Program file").
ghost use Rattle.std.specs.Prelude.{◌≡◌, ◌+◌, ◌^◌, ◌<◌};
ghost use Rattle.program.specs.Format.{kind_at, argument_at, label_shape, type_shape, term_shape};
ghost use Rattle.program.specs.ArgumentRules.{rule_of, rule_allows};
ghost use Rattle.program.specs.Format.{entry_count};

use rules::kinds::{
    ABSTRACTION, APPLICATION, APPLY, BIT, BOX, FORCE, GATE, LABEL, QUBIT, UNIT, UNIT_VALUE,
    VARIABLE,
};
use words::{byte_at, word_at};

// What an entry's argument must be.
#[derive(Clone, Copy)]
pub enum Argument {
    Zero,
    LabelNumber,
    GateNumber,
    TypePosition,
    BinderCount,
}

// What a kind of its section settles: how many parts follow, and the rule for the argument.
#[derive(Clone, Copy)]
pub struct Shape {
    pub parts: usize,
    pub argument: Argument,
}

// The sizes at the start of a file.
#[derive(Clone, Copy)]
pub struct Sizes {
    // L, the labels.
    pub labels: usize,
    // P, the type entries.
    pub types: usize,
    // N, the term entries.
    pub terms: usize,
}

// How many bytes the three sizes take, and where each stands.
pub const SIZES: usize = 6;

pub const LABELS: usize = 0;

pub const TYPES: usize = 2;

pub const TERMS: usize = 4;

// The kind byte of entry e; 0 past the end.
#[tactic(auto, using(words::proofs::Laws::Numbers::byte_past), unfolding(crate::specs::Format::kind_at))]
pub fn kind_at(file: &[u8], e: usize) -> usize
    ensures value { result ≡ kind_at file.now e }
    ensures upper_bound { result < 256 }
{
    if file.len() <= e {
        return 0;
    }
    byte_at(file, SIZES + e) as usize
}

// How many entries a file has by its sizes.
pub fn entry_count(file: &[u8]) -> usize
    ensures value { result ≡ entry_count file.now }
    ensures upper_bound { result < 196608 }
{
    word_at(file, LABELS) + word_at(file, TYPES) + word_at(file, TERMS)
}

// The argument of entry e; 0 past the end.
#[tactic(auto, using(words::proofs::Laws::Numbers::number_past), unfolding(crate::specs::Format::argument_at))]
pub fn argument_at(file: &[u8], e: usize) -> usize
    ensures value { result ≡ argument_at file.now e }
    ensures upper_bound { result < 65536 }
{
    if file.len() / 2 <= e {
        return 0;
    }
    word_at(file, SIZES + entry_count(file) + 2 * e)
}

// The rule of a kind in each section, where it is one of the section: a match each, as 01 asks ("by section and range").
#[tactic(auto, using(crate::proofs::Laws::Scans::label_shapes), unfolding(crate::specs::Format::label_shape))]
pub(crate) fn label_rule(kind: usize) -> Option<Argument>
    ensures { result ≡ rule_of (label_shape kind) }
{
    match kind {
        BIT..=QUBIT => Some(Argument::Zero),
        _ => None,
    }
}

#[tactic(auto, using(crate::proofs::Laws::Scans::type_section))]
pub(crate) fn type_rule(kind: usize) -> Option<Argument>
    ensures { result ≡ rule_of (type_shape kind) }
{
    match kind {
        BIT..=UNIT => Some(Argument::Zero),
        _ => None,
    }
}

#[tactic(auto, using(crate::proofs::Laws::Scans::term_section), unfolding(crate::specs::Format::term_shape))]
pub(crate) fn term_rule(kind: usize) -> Option<Argument>
    ensures { result ≡ rule_of (term_shape kind) }
{
    match kind {
        VARIABLE => Some(Argument::BinderCount),
        LABEL => Some(Argument::LabelNumber),
        ABSTRACTION => Some(Argument::TypePosition),
        APPLICATION..=FORCE => Some(Argument::Zero),
        BOX => Some(Argument::TypePosition),
        APPLY => Some(Argument::Zero),
        GATE => Some(Argument::GateNumber),
        UNIT_VALUE => Some(Argument::Zero),
        _ => None,
    }
}

// Whether a rule allows an argument.
pub(crate) fn rule_allows(s: Sizes, rule: Option<Argument>, a: usize) -> bool
    ensures { result ≡ rule_allows s.labels s.types rule a }
{
    let Some(argument) = rule else {
        return false;
    };
    match argument {
        Argument::Zero => a == 0,
        Argument::LabelNumber => a < s.labels,
        Argument::GateNumber => rules::is_gate(a),
        Argument::TypePosition => a < s.types,
        Argument::BinderCount => true,
    }
}
