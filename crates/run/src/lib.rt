// The run (01, "When each operation says no", Run): 19, or what run_parts answers, with the working memory cleared.
// Believe: its contract, which speaks in the definitions of run_answers.
// Main theorems: run_means and run_is_safe of run_answers; the clearing is proofs/Laws/Cleared.
// Called by cabinet and by wirelist.
#![tactic(auto)]

ghost use Rattle.std.specs.Prelude.{◌≡◌, [], ◌∷◌};
ghost use Rattle.lent.specs.Lent.{first_bytes, last_bytes};
ghost use Rattle.run_answers.specs.Answers.{run_answer, run_bytes};
ghost use Rattle.run_answers.specs.Demand2.{RunMeans};
ghost use Rattle.run_answers.specs.Safe.{RunIsSafe};

use refusals::{Refusal, TOO_SHORT};
use run_answers::Finished;
use run_buffers::{clear_all, too_short};
use run_parts::run_uncleared;

// The run: the check, then the steps from the file's start, at most as many as the limit; at the finish the listing at the start
// of the output buffer. The other buffers are working memory. The eleven are arguments of their own, here and below, as the contract
// (lent) and the definitions of run_answers name them in this order and the exports of cabinet get them apart.
pub fn run(
    file: &[u8],
    limit: u32,
    out: &mut [u8],
    nodes: &mut [u8],
    stack: &mut [u8],
    types: &mut [u8],
    frames: &mut [u8],
    gates: &mut [u8],
    circuits: &mut [u8],
    results0: &mut [u8],
    results1: &mut [u8],
    results2: &mut [u8],
    results3: &mut [u8],
) -> Result<Finished, Refusal>
    ensures answer { let lent = out ∷ nodes ∷ stack ∷ types ∷ frames ∷ gates ∷ circuits ∷ results0 ∷ results1 ∷ results2 ∷ results3 ∷ [] in
        result ≡ run_answer file.now limit (first_bytes lent) }
    ensures bytes { let lent = out ∷ nodes ∷ stack ∷ types ∷ frames ∷ gates ∷ circuits ∷ results0 ∷ results1 ∷ results2 ∷ results3 ∷ [] in
        last_bytes lent ≡ run_bytes file.now limit (first_bytes lent) }
    ensures meaning { RunMeans file.now limit }
    ensures safety { RunIsSafe file.now limit }
{
    if too_short(
        out.len(),
        nodes.len(),
        stack.len(),
        types.len(),
        frames.len(),
        gates.len(),
        circuits.len(),
        results0.len(),
        results1.len(),
        results2.len(),
        results3.len(),
    ) {
        return Err(TOO_SHORT);
    }
    let answer = run_uncleared(
        file,
        limit as usize,
        out,
        nodes,
        stack,
        types,
        frames,
        gates,
        circuits,
        results0,
        results1,
        results2,
        results3,
    );
    clear_all(
        nodes, stack, types, frames, gates, circuits, results0, results1, results2, results3,
    );
    answer
}
