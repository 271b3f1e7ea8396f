// Box exit in lent memory: the label tuple that the innermost frame has come to is the result of its circuit, which is closed;
// a constant that stands for it takes the place of the box.
// Nothing to believe: it meets the contract Steps of crate machine_state.
// Main law: circuit_closed (proofs/Laws/Exit).
// Called by machine_steps.
#![tactic(auto)]

ghost use Rattle.std.specs.Prelude.{ℕ, ◌≤◌, ◌<◌, ◌≡◌, List};
ghost use Rattle.rules.specs.Sizes.{most_gates, most_boxes};
ghost use Rattle.machine_terms.specs.Trees.{argument};
ghost use Rattle.machine_terms.specs.Walks.{at_exit};
ghost use Rattle.words.specs.Words.{words};
ghost use Rattle.machine_nodes.specs.Nodes.{nodes_in, node_at};
ghost use Rattle.words.specs.Quadwords.{quadwords_in};
ghost use Rattle.machine_circuits.specs.Layout.{four_results};
ghost use Rattle.machine_state.specs.Memory.{memory};
ghost use Rattle.machine_state.specs.Outcomes.{Steps};
ghost use Rattle.step_box_exit.specs.Closing.{ExitAt, Saves, CircuitPut, ConstantPut, after_exit};

use machine_circuits::closed::{result_buffer, result_start};
use machine_circuits::gates::{CLOSED_FROM, move_gates};
use machine_circuits::tuples::save_result;
use machine_nodes::{argument_at, put_node};
use machine_state::{Counts, StateNumbers};
use machine_walk::Place;
use machine_walk::stack::{stack_node, stack_start};
use rules::kinds::CONSTANT;
use rules::sizes::{MOST_BOXES, MOST_GATES};
use words::quadwords::{put_quadword, word_in};

// The box that is left: its node, the result, and the gates of the innermost frame.
#[derive(Clone, Copy)]
struct Exit {
    // The place of the box's node.
    at: usize,
    // Where the result starts.
    start: usize,
    // How many nodes it has.
    nodes: usize,
    // The quadword of the innermost frame's first gate.
    base: usize,
    // How many gates that frame has.
    gates: usize,
}

// What the stack and the frames say of the innermost frame.
fn exit_at(stack: &[u8], frames: &[u8], numbers: StateNumbers) -> Exit
    ensures { ExitAt (quadwords_in stack.now) (quadwords_in frames.now) numbers result }
{
    let StateNumbers { place, counts } = numbers;
    let top = place.depth.saturating_sub(1);
    let start = stack_start(stack, top);
    let base = word_in(frames, counts.frames.saturating_sub(1), 0);
    Exit {
        at: stack_node(stack, top),
        start,
        nodes: place.left.saturating_sub(start),
        base,
        gates: counts.gates.saturating_sub(base),
    }
}

// The result is saved in the slot of closed circuit i. Each arm has a call of its own, since the prover's borrow checker does not cover a
// `&mut` that is one of four by the arm taken, and C lends the four buffers one by one.
fn save_among(
    nodes: &[u8],
    exit: Exit,
    i: usize,
    results0: &mut [u8],
    results1: &mut [u8],
    results2: &mut [u8],
    results3: &mut [u8],
)
    ensures { Saves (nodes_in nodes.now) exit i
        (four_results (words results0.old) (words results1.old) (words results2.old) (words results3.old))
        (four_results (words results0.new) (words results1.new) (words results2.new) (words results3.new)) }
{
    let from = result_start(i);
    match result_buffer(i) {
        0 => save_result(nodes, exit.start, exit.nodes, results0, from),
        1 => save_result(nodes, exit.start, exit.nodes, results1, from),
        2 => save_result(nodes, exit.start, exit.nodes, results2, from),
        _ => save_result(nodes, exit.start, exit.nodes, results3, from),
    }
}

// The gates of the innermost frame move behind those of the closed circuits, and the quadword of the circuit is put.
fn put_circuit(nodes: &[u8], gates: &mut [u8], circuits: &mut [u8], exit: Exit, counts: Counts)
    requires { counts.kept ≤ most_gates }
    ensures { CircuitPut (quadwords_in gates.old) (quadwords_in gates.new) (quadwords_in circuits.old) (quadwords_in circuits.new)
        exit counts (argument (node_at (nodes_in nodes.now) exit.at)) }
{
    let position = argument_at(nodes, exit.at);
    let to = CLOSED_FROM + counts.kept;
    move_gates(gates, exit.base, exit.gates, to);
    put_quadword(circuits, counts.boxes, position, to, exit.gates, exit.nodes);
}

// The constant stands in front of what is still to be walked.
fn put_constant(nodes: &mut [u8], exit: Exit, numbers: StateNumbers) -> StateNumbers
    requires boxes_lt_most_boxes { numbers.counts.boxes < most_boxes }
    requires kept_le_most_gates { numbers.counts.kept ≤ most_gates }
    requires gates_le_most_gates { exit.gates ≤ most_gates }
    ensures constant_put { ConstantPut (nodes_in nodes.old) (nodes_in nodes.new) numbers }
    ensures value { result ≡ after_exit numbers exit }
{
    let StateNumbers { place, counts } = numbers;
    let right = place.right.saturating_sub(1);
    put_node(nodes, right, CONSTANT, counts.boxes);
    StateNumbers {
        place: Place {
            left: exit.at,
            right,
            depth: place.depth.saturating_sub(1),
            returning: false,
        },
        counts: Counts {
            frames: counts.frames.saturating_sub(1),
            gates: exit.base,
            boxes: counts.boxes + 1,
            kept: counts.kept + exit.gates,
        },
    }
}

// Box exit where one more circuit may be closed.
fn leave(
    nodes: &mut [u8],
    stack: &[u8],
    gates: &mut [u8],
    circuits: &mut [u8],
    frames: &[u8],
    results0: &mut [u8],
    results1: &mut [u8],
    results2: &mut [u8],
    results3: &mut [u8],
    numbers: StateNumbers,
) -> StateNumbers
    requires boxes_lt_most_boxes { numbers.counts.boxes < most_boxes }
    requires gates_le_most_gates { numbers.counts.gates ≤ most_gates }
    requires kept_le_most_gates { numbers.counts.kept ≤ most_gates }
    ensures { (ws : List ℕ) (allowance : ℕ) → Steps at_exit allowance
        (memory (nodes_in nodes.old) (quadwords_in stack.now) (quadwords_in gates.old) (quadwords_in circuits.old) (quadwords_in frames.now) ws
        (four_results (words results0.old) (words results1.old) (words results2.old) (words results3.old)))
        (memory (nodes_in nodes.new) (quadwords_in stack.now) (quadwords_in gates.new) (quadwords_in circuits.new) (quadwords_in frames.now) ws
        (four_results (words results0.new) (words results1.new) (words results2.new) (words results3.new)))
        numbers (Some result) }
{
    let counts = numbers.counts;
    let exit = exit_at(stack, frames, numbers);
    save_among(
        nodes,
        exit,
        counts.boxes,
        results0,
        results1,
        results2,
        results3,
    );
    put_circuit(nodes, gates, circuits, exit, counts);
    put_constant(nodes, exit, numbers)
}

// Box exit. The 257th does not fit (01: "at most 256 boxes closed"). Nodes and gates always do: there are fewer nodes than
// before, and as many gates. More gates than may be are in no configuration; without these tests a sum could wrap.
pub fn close_box(
    nodes: &mut [u8],
    stack: &[u8],
    gates: &mut [u8],
    circuits: &mut [u8],
    frames: &[u8],
    results0: &mut [u8],
    results1: &mut [u8],
    results2: &mut [u8],
    results3: &mut [u8],
    numbers: StateNumbers,
) -> Option<StateNumbers>
    ensures { (ws : List ℕ) (allowance : ℕ) → Steps at_exit allowance
        (memory (nodes_in nodes.old) (quadwords_in stack.now) (quadwords_in gates.old) (quadwords_in circuits.old) (quadwords_in frames.now) ws
        (four_results (words results0.old) (words results1.old) (words results2.old) (words results3.old)))
        (memory (nodes_in nodes.new) (quadwords_in stack.now) (quadwords_in gates.new) (quadwords_in circuits.new) (quadwords_in frames.now) ws
        (four_results (words results0.new) (words results1.new) (words results2.new) (words results3.new)))
        numbers result }
{
    let counts = numbers.counts;
    if MOST_BOXES <= counts.boxes || MOST_GATES < counts.gates || MOST_GATES < counts.kept {
        return None;
    }
    Some(leave(
        nodes, stack, gates, circuits, frames, results0, results1, results2, results3, numbers,
    ))
}
