// Refusals (01, "When each operation says no"), which every operation answers with.
// Believe: specs/Refusals, a refusal's number and place.
// No theorem: the two functions give back a field. Which numbers there are: proofs/Theorems/Families of crate run_answers.
// Called by the reader, the check, the run, and whatever prints or packs an answer.
#![tactic(auto)]

ghost use Rattle.std.specs.Prelude.{◌≡◌};
ghost use Rattle.refusals.specs.Refusals.{refusal_number, refusal_place};

// A refusal belongs to one of three families; its number and place are those of 01.
// The number is no enum: `refusal_with` and `RefusalFits` of cabinet_answers, and the clauses below, speak of every number.
#[derive(Clone, Copy, Debug, PartialEq, Eq)]
pub enum Refusal {
    Form { number: usize, place: usize },
    Typing { number: usize, place: usize },
    Run { number: usize, place: usize },
}

// 19: a buffer is shorter than its least length (01, "When each operation says no").
pub const TOO_SHORT: Refusal = Refusal::Run {
    number: 19,
    place: 0,
};

// 01's number of a refusal.
pub fn number_of(refusal: Refusal) -> usize
    ensures { result ≡ refusal_number refusal }
{
    match refusal {
        Refusal::Form { number, .. }
        | Refusal::Typing { number, .. }
        | Refusal::Run { number, .. } => number,
    }
}

// 01's place of a refusal.
pub fn place_of(refusal: Refusal) -> usize
    ensures { result ≡ refusal_place refusal }
{
    match refusal {
        Refusal::Form { place, .. } | Refusal::Typing { place, .. } | Refusal::Run { place, .. } =>
            place,
    }
}
