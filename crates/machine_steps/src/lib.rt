// The step at a stop of the walk, in lent memory.
// Nothing to believe: it meets the contract Steps of crate machine_state at each stop.
// Main laws: proofs/Laws/Stops, there is no step at the end and none at a variable.
// Called by the machine.
#![tactic(auto)]

ghost use Rattle.std.specs.Prelude.{ℕ, ◌≤◌, ◌<◌, ◌≡◌, List, length};
ghost use Rattle.rules.specs.Types.{most_entries};
ghost use Rattle.rules.specs.Sizes.{most_nodes};
ghost use Rattle.words.specs.Words.{words};
ghost use Rattle.machine_terms.specs.Walks.{at_apply, at_exit};
ghost use Rattle.machine_walk.specs.Places.{stop_of};
ghost use Rattle.machine_state.specs.Buffers.{memory_with, memory_in, SameBuffers};
ghost use Rattle.machine_state.specs.Outcomes.{Steps};

use machine_nodes::kind_at;
use machine_state::{Buffers, StateNumbers};
use machine_walk::Stop;
use machine_walk::stack::stack_node;
use rules::kinds::GATE;
use step_apply_circuit::apply_constant;
use step_apply_gate::apply_gate;
use step_box_entry::open_box;
use step_box_exit::close_box;
use step_reductions::{application, force, let_in};

// Apply of a gate, or of a closed circuit.
fn apply(
    allowance: usize,
    numbers: StateNumbers,
    buffers: &mut Buffers,
    labels: &mut [u8],
) -> Option<StateNumbers>
    ensures same_buffers { SameBuffers buffers.old buffers.new }
    ensures kept { (buffers.new.stack.now ≡ buffers.old.stack.now)
        × (buffers.new.circuits.now ≡ buffers.old.circuits.now)
        × (buffers.new.results0.now ≡ buffers.old.results0.now)
        × (buffers.new.results1.now ≡ buffers.old.results1.now)
        × (buffers.new.results2.now ≡ buffers.old.results2.now)
        × (buffers.new.results3.now ≡ buffers.old.results3.now) }
    ensures steps { most_entries ≤ length (words labels.old) → (ws : List ℕ)
        → Steps at_apply allowance (memory_with ws buffers.old) (memory_with ws buffers.new) numbers result }
{
    let top = numbers.place.depth.checked_sub(1)?;
    let nodes = &mut *buffers.nodes;
    let stack = &mut *buffers.stack;
    let frames = &mut *buffers.frames;
    let gates = &mut *buffers.gates;
    let circuits = &mut *buffers.circuits;
    let results0 = &mut *buffers.results0;
    let results1 = &mut *buffers.results1;
    let results2 = &mut *buffers.results2;
    let results3 = &mut *buffers.results3;
    let at = stack_node(stack, top);
    if kind_at(nodes, at + 1) == GATE {
        apply_gate(nodes, stack, labels, gates, frames, numbers, allowance)
    } else {
        apply_constant(
            nodes, stack, labels, gates, circuits, frames, results0, results1, results2, results3,
            numbers, allowance,
        )
    }
}

// Box exit: its buffers are lent one by one.
fn exit_box(buffers: &mut Buffers, numbers: StateNumbers) -> Option<StateNumbers>
    ensures same_buffers { SameBuffers buffers.old buffers.new }
    ensures kept { (buffers.new.stack.now ≡ buffers.old.stack.now) × (buffers.new.frames.now ≡ buffers.old.frames.now) }
    ensures steps { (ws : List ℕ) (allowance : ℕ) → Steps at_exit allowance (memory_with ws buffers.old) (memory_with ws buffers.new) numbers result }
{
    let nodes = &mut *buffers.nodes;
    let stack = &mut *buffers.stack;
    let frames = &mut *buffers.frames;
    let gates = &mut *buffers.gates;
    let circuits = &mut *buffers.circuits;
    let results0 = &mut *buffers.results0;
    let results1 = &mut *buffers.results1;
    let results2 = &mut *buffers.results2;
    let results3 = &mut *buffers.results3;
    close_box(
        nodes, stack, gates, circuits, frames, results0, results1, results2, results3, numbers,
    )
}

// The step at a stop. There is none at the end, and none at a variable, where no typed program stops. It is a match, since the stops are
// a closed enum and each step borrows other buffers.
pub fn step(
    stop: Stop,
    allowance: usize,
    numbers: StateNumbers,
    buffers: &mut Buffers,
    waiting: &mut [u8],
    labels: &mut [u8],
) -> Option<StateNumbers>
    ensures same_buffers { SameBuffers buffers.old buffers.new }
    ensures steps { most_nodes < length (words waiting.old) → most_entries ≤ length (words labels.old)
        → Steps (stop_of stop) allowance (memory_in buffers.old) (memory_in buffers.new) numbers result }
{
    let nodes = &mut *buffers.nodes;
    let stack = &mut *buffers.stack;
    match stop {
        Stop::AtApplication => application(nodes, stack, waiting, numbers),
        Stop::AtLet => let_in(nodes, stack, waiting, numbers),
        Stop::AtForce => Some(force(nodes, stack, numbers)),
        Stop::AtBox => {
            let frames = &mut *buffers.frames;
            open_box(nodes, stack, buffers.types, frames, numbers)
        }
        Stop::AtApply => apply(allowance, numbers, buffers, labels),
        Stop::AtExit => exit_box(buffers, numbers),
        Stop::AtEnd | Stop::AtVariable => None,
    }
}
