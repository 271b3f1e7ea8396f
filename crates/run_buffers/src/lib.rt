// The buffers that are lent to a run: whether one is too short, and how its working memory is cleared.
// Nothing to believe: the least lengths are those of run_answers/specs/Lengths.
// No theorem beyond the two contracts.
// Called by run and run_parts.
#![tactic(auto)]

ghost use Rattle.std.specs.Prelude.{◌≡◌, [], ◌∷◌, map};
ghost use Rattle.lent.specs.Lent.{any_below, first_bytes, last_bytes, zeroed};
ghost use Rattle.run_answers.specs.Lengths.{run_lengths};

use listing::MOST_BYTES;
use rules::sizes::{MOST_BOXES, MOST_ENTRIES, MOST_GATES, MOST_LABELS, MOST_NODES, MOST_TYPES};
use words::clear;

// The least lengths, as run_lengths has them.
const LEAST_OUT: usize = MOST_BYTES;

const LEAST_NODES: usize = 4 * (4 * MOST_NODES);

const LEAST_STACK: usize = 8 * MOST_NODES;

const LEAST_TYPES: usize = 2 * (MOST_TYPES + MOST_LABELS);

const LEAST_FRAMES: usize = 8 * (MOST_NODES + 1);

const LEAST_GATES: usize = 8 * (MOST_GATES + MOST_GATES);

const LEAST_CIRCUITS: usize = 8 * MOST_BOXES;

// Of each of the four buffers of results.
const LEAST_RESULTS: usize = 2 * (MOST_ENTRIES * (MOST_BOXES / 4));

// Is one of the buffers, of these lengths, shorter than its least length?
pub fn too_short(
    out: usize,
    nodes: usize,
    stack: usize,
    types: usize,
    frames: usize,
    gates: usize,
    circuits: usize,
    results0: usize,
    results1: usize,
    results2: usize,
    results3: usize,
) -> bool
    ensures { result ≡ any_below run_lengths (out ∷ nodes ∷ stack ∷ types ∷ frames ∷ gates ∷ circuits ∷ results0 ∷ results1 ∷ results2 ∷ results3 ∷ []) }
{
    out < LEAST_OUT
        || nodes < LEAST_NODES
        || stack < LEAST_STACK
        || types < LEAST_TYPES
        || frames < LEAST_FRAMES
        || gates < LEAST_GATES
        || circuits < LEAST_CIRCUITS
        || results0 < LEAST_RESULTS
        || results1 < LEAST_RESULTS
        || results2 < LEAST_RESULTS
        || results3 < LEAST_RESULTS
}

// All working memory becomes zero.
pub fn clear_all(
    nodes: &mut [u8],
    stack: &mut [u8],
    types: &mut [u8],
    frames: &mut [u8],
    gates: &mut [u8],
    circuits: &mut [u8],
    results0: &mut [u8],
    results1: &mut [u8],
    results2: &mut [u8],
    results3: &mut [u8],
)
    ensures { let work = nodes ∷ stack ∷ types ∷ frames ∷ gates ∷ circuits ∷ results0 ∷ results1 ∷ results2 ∷ results3 ∷ [] in last_bytes work ≡ map zeroed (first_bytes work) }
{
    clear(nodes);
    clear(stack);
    clear(types);
    clear(frames);
    clear(gates);
    clear(circuits);
    clear(results0);
    clear(results1);
    clear(results2);
    clear(results3);
}
