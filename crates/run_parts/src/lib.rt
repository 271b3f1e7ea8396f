// The run of a file in three parts: `begin`, the steps (`machine::advance`) and `finish`. The working memory is not cleared.
// Nothing to believe. BegunAs and EndsAs (specs/Parts) are the contracts of the two ends, for every typed state.
// Main laws: start_held, gone_on, says_ended (proofs/Laws/Running).
// Called by run.
#![tactic(auto)]

pub mod begin;
pub mod finish;

ghost use Rattle.std.specs.Prelude.{◌≡◌, [], ◌∷◌};
ghost use Rattle.lent.specs.Lent.{first_bytes};
ghost use Rattle.run_answers.specs.Answers.{run_answer};
ghost use Rattle.run_parts.specs.Parts.{out_left};

use begin::begin;
use finish::finish;
use machine::advance;
use machine_state::Buffers;
use refusals::{Refusal, TOO_SHORT};
use rules::sizes::MOST_GATES;
use run_answers::Finished;
use run_buffers::too_short;

// The answer of a run, and its listing at the start of the output buffer.
pub fn run_uncleared(
    file: &[u8],
    limit: usize,
    out: &mut [u8],
    nodes: &mut [u8],
    stack: &mut [u8],
    types: &mut [u8],
    frames: &mut [u8],
    gates: &mut [u8],
    circuits: &mut [u8],
    results0: &mut [u8],
    results1: &mut [u8],
    results2: &mut [u8],
    results3: &mut [u8],
) -> Result<Finished, Refusal>
    ensures answer { let lent = out ∷ nodes ∷ stack ∷ types ∷ frames ∷ gates ∷ circuits ∷ results0 ∷ results1 ∷ results2 ∷ results3 ∷ [] in
        result ≡ run_answer file.now limit (first_bytes lent) }
    ensures bytes { let lent = out ∷ nodes ∷ stack ∷ types ∷ frames ∷ gates ∷ circuits ∷ results0 ∷ results1 ∷ results2 ∷ results3 ∷ [] in
        out.new ≡ out_left file.now limit (first_bytes lent) out.old }
{
    if too_short(
        out.len(),
        nodes.len(),
        stack.len(),
        types.len(),
        frames.len(),
        gates.len(),
        circuits.len(),
        results0.len(),
        results1.len(),
        results2.len(),
        results3.len(),
    ) {
        return Err(TOO_SHORT);
    }
    let begun = begin(file, nodes, types, frames);
    let Ok(numbers) = begun else {
        return Err(begun.unwrap_err());
    };
    let mut buffers = Buffers {
        nodes,
        stack,
        types,
        frames,
        gates,
        circuits,
        results0,
        results1,
        results2,
        results3,
    };
    let advanced = advance(limit, MOST_GATES, numbers, &mut buffers);
    let Buffers {
        nodes,
        types,
        frames,
        gates,
        ..
    } = buffers;
    finish(advanced, out, nodes, types, frames, gates)
}
