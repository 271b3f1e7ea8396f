// How many parts each kind has (02, ticket 7).
ghost use Rattle.std.specs.Prelude.{◌≡◌};
ghost use Rattle.rules.specs.Parts.{parts_of_kind};

use crate::kinds::{BIT, UNIT, UNIT_VALUE, VARIABLE};
use crate::number_at;

// How many kinds there are, and how many numbers between those of types and those of terms are no kind.
const KINDS: usize = 19;

const BETWEEN: usize = 9;

// The parts of types' kinds, 0 to 6, and behind them those of terms' kinds, 16 to 27.
static PARTS: [u8; KINDS] = [0, 0, 2, 2, 1, 2, 0, 0, 0, 1, 2, 2, 2, 1, 1, 1, 2, 0, 0];

// How many parts a kind has; 0 where there is no such kind.
#[tactic(auto, unfolding(crate::specs::Parts::parts_of_kind))]
pub fn parts_of_kind(kind: usize) -> usize
    ensures { result ≡ parts_of_kind kind }
{
    match kind {
        BIT..=UNIT => number_at(&PARTS, kind),
        VARIABLE..=UNIT_VALUE => number_at(&PARTS, kind - BETWEEN),
        _ => 0,
    }
}
