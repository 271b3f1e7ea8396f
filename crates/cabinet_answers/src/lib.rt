// The answer of each operation in one number, for callers outside. What the fields do not hold is cut off.
// Believe: specs/Packed, each answer in one number, and what a caller reads in it.
// Main theorems: unpacked_read_lem, unpacked_check_lem, unpacked_run_lem, unpacked_listing_lem, unpacked_export, unpacked_import
// (proofs/Theorems/Unpacking), a caller gets back every answer.
// Called by cabinet.
#![tactic(auto)]

ghost use Rattle.std.specs.Prelude.{ℕ, ◌≡◌};
ghost use Rattle.refusals.specs.Refusals.{refusal_number, refusal_place};
ghost use Rattle.cabinet_answers.specs.Packed.{packed_refusal, packed_sizes, packed_length, packed_ran, packed_counts, packed_answer};

use listing_check::ListingSizes;
use program::format::Sizes;
use refusals::{Refusal, number_of, place_of};
use run_answers::Finished;

// Number and place of a refusal.
fn pack_refusal(refusal: Refusal) -> u64
    ensures { result ≡ packed_refusal (refusal_number refusal) (refusal_place refusal) }
{
    (number_of(refusal) % 64) as u64 + 64 * ((place_of(refusal) % 65536) as u64)
}

// What an operation answers where it does not refuse, in the bits behind those of a refusal's number.
pub trait Packed {
    ghost packed: { Self → ℕ };

    fn pack(self) -> u64
        ensures { result ≡ packed self };
}

// The sizes of a file that is accepted.
impl Packed for Sizes {
    ghost packed = { λ s. packed_sizes s.labels s.types s.terms };

    fn pack(self) -> u64 {
        64 * ((self.labels % 128) as u64)
            + 8192 * ((self.types % 1024) as u64)
            + 8388608 * ((self.terms % 4096) as u64)
    }
}

// The length of a type, of a text or of a listing that is written.
impl Packed for usize {
    ghost packed = { packed_length };

    fn pack(self) -> u64 {
        64 * ((self % 65536) as u64)
    }
}

// Steps, gates and length of a finished run.
impl Packed for Finished {
    ghost packed = { λ a. packed_ran a.steps a.gates a.length };

    fn pack(self) -> u64 {
        64 * ((self.gates % 4096) as u64)
            + 262144 * ((self.length % 16384) as u64)
            + 4294967296 * ((self.steps % 4294967296) as u64)
    }
}

// Inputs, gates and outputs of a listing that is accepted.
impl Packed for ListingSizes {
    ghost packed = { λ n. packed_counts n.inputs n.gates n.outputs };

    fn pack(self) -> u64 {
        64 * ((self.inputs % 128) as u64)
            + 8192 * ((self.gates % 4096) as u64)
            + 33554432 * ((self.outputs % 512) as u64)
    }
}

// The answer of an operation in one number.
pub fn pack_answer<T: Packed>(answer: Result<T, Refusal>) -> u64
    ensures { result ≡ packed_answer T.packed answer }
{
    match answer {
        Ok(answered) => answered.pack(),
        Err(refusal) => pack_refusal(refusal),
    }
}
