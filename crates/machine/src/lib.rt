// The circuit-building machine in lent memory: the walk and the step at its stop, one after another, up to a number of steps.
// Nothing to believe. Advances (specs/Advancing) is the contract: ending, number of steps and state held are those of the rules'
// `advanced`, for every typed state that the memory holds.
// Main laws: proofs/Laws/Advancing, what is left comes to what the whole comes to.
// Called by the run. No `requires`: in memory that holds no typed state it ends, and nothing is promised.
#![tactic(auto)]

ghost use Rattle.std.specs.Prelude.{◌≤◌, ◌<◌, ◌≡◌, length};
ghost use Rattle.rules.specs.Types.{most_entries};
ghost use Rattle.rules.specs.Sizes.{most_nodes};
ghost use Rattle.words.specs.Words.{words};
ghost use Rattle.machine_walk.specs.Places.{stop_of};
ghost use Rattle.machine_state.specs.Buffers.{memory_in, SameBuffers};
ghost use Rattle.machine.specs.Advancing.{Advances};
ghost use Rattle.machine.specs.Progress.{is_end, AdvancesOnce};

use machine_state::{Buffers, StateNumbers};
use machine_steps::step;
use machine_walk::{Stop, Stopped, walk};
use rules::sizes::{MOST_ENTRIES, MOST_NODES};
use std::ops::ControlFlow;

// How it ended: there is no next step; the steps asked for are done and there is a next one; the next one exceeds a size.
#[derive(Drop)]
pub enum Ending {
    Finished,
    Running,
    TooLarge,
}

// What came of the steps.
#[derive(Drop)]
pub struct Advanced {
    // How it ended.
    pub ending: Ending,
    // After how many steps.
    pub steps: usize,
    // The numbers of the state then.
    pub numbers: StateNumbers,
}

// Has the walk come to the end of the outermost frame?
fn is_end(stop: Stop) -> bool
    ensures { result ≡ is_end (stop_of stop) }
{
    matches!(stop, Stop::AtEnd)
}

// The walk to the next stop and the step there: the numbers after the step, or, where there is none, how it ended and the numbers at
// the stop.
fn walk_and_step(
    allowance: usize,
    numbers: StateNumbers,
    buffers: &mut Buffers,
    waiting: &mut [u8],
    labels: &mut [u8],
) -> ControlFlow<(Ending, StateNumbers), StateNumbers>
    ensures same_buffers { SameBuffers buffers.old buffers.new }
    ensures advances_once { most_nodes < length (words waiting.old) → most_entries ≤ length (words labels.old)
        → AdvancesOnce allowance (memory_in buffers.old) (memory_in buffers.new) numbers result }
{
    let nodes = &mut *buffers.nodes;
    let stack = &mut *buffers.stack;
    let Stopped { stop, place } = walk(nodes, stack, numbers.place);
    let now = StateNumbers { place, ..numbers };
    if is_end(stop) {
        return ControlFlow::Break((Ending::Finished, now));
    }
    match step(stop, allowance, now, buffers, waiting, labels) {
        Some(next) => ControlFlow::Continue(next),
        None => ControlFlow::Break((Ending::TooLarge, now)),
    }
}

// The bytes of the two memories that hold nothing between steps: 4,097 parts that a substitution waits for, and 512 labels of
// an apply's argument, a word each.
const LEAST_WAITING: usize = 2 * (MOST_NODES + 1);

const LEAST_LABELS: usize = 2 * MOST_ENTRIES;

// At most k steps.
pub fn advance(k: usize, allowance: usize, numbers: StateNumbers, buffers: &mut Buffers) -> Advanced
    ensures same_buffers { SameBuffers buffers.old buffers.new }
    ensures advances { Advances allowance k (memory_in buffers.old) (memory_in buffers.new) numbers result }
{
    let mut waiting = [0u8; LEAST_WAITING];
    let mut labels = [0u8; LEAST_LABELS];
    let mut now = numbers;
    for steps in 0..k {
        match walk_and_step(allowance, now, buffers, &mut waiting, &mut labels) {
            ControlFlow::Continue(next) => now = next,
            ControlFlow::Break((ending, numbers)) => {
                return Advanced {
                    ending,
                    steps,
                    numbers,
                };
            }
        }
    }
    let nodes = &mut *buffers.nodes;
    let stack = &mut *buffers.stack;
    let Stopped { stop, place } = walk(nodes, stack, now.place);
    let ending = if is_end(stop) {
        Ending::Finished
    } else {
        Ending::Running
    };
    Advanced {
        ending,
        steps: k,
        numbers: StateNumbers { place, ..now },
    }
}
