// Apply of a gate in lent memory: it is put behind the gates of the innermost circuit, and its outputs, numbered on, are
// evaluated next.
// Nothing to believe: it meets the contract Steps of crate machine_state.
// Main laws: proofs/Laws/Stepping.
// Called by machine_steps.
#![tactic(auto)]

ghost use Rattle.std.specs.Prelude.{ℕ, ◌+◌, ◌-◌, ◌≤◌, ◌≡◌, List, length};
ghost use Rattle.rules.specs.Kinds.{gate_term_kind};
ghost use Rattle.rules.specs.Types.{most_entries};
ghost use Rattle.machine_terms.specs.Trees.{kind};
ghost use Rattle.machine_terms.specs.Walks.{at_apply};
ghost use Rattle.words.specs.Words.{words};
ghost use Rattle.machine_nodes.specs.Nodes.{nodes_in, node_at};
ghost use Rattle.words.specs.Quadwords.{quadword_at, Quadword, quadwords_in};
ghost use Rattle.machine_walk.specs.Stack.{stack_node};
ghost use Rattle.machine_state.specs.Memory.{memory};
ghost use Rattle.machine_state.specs.Outcomes.{Steps};
ghost use Rattle.step_apply_gate.specs.Applying.{GatePut, OutputsPut};

use machine_circuits::gates::append_gate;
use machine_circuits::tuples::{collect_labels, output_size, write_outputs};
use machine_nodes::argument_at;
use machine_state::{Counts, StateNumbers, exceed};
use machine_walk::Place;
use machine_walk::stack::{stack_node, stack_start};
use rules::sizes::MOST_NODES;
use words::quadwords::{put_quadword, word_in};

// How many numbers a word has.
const WORD_END: usize = 65536;

// The gate is put into a quadword, on the labels of the tuple that starts at a node and has so many nodes.
fn put_gate(
    nodes: &[u8],
    start: usize,
    count: usize,
    labels: &mut [u8],
    gates: &mut [u8],
    i: usize,
    number: usize,
)
    ensures { GatePut (nodes_in nodes.now) (words labels.old) (quadwords_in gates.old) (quadwords_in gates.new) start count i number }
{
    collect_labels(nodes, start, count, labels);
    append_gate(gates, i, number, labels);
}

// The gate's outputs are written from a node on, numbered on from the wires of a frame, which counts them.
fn put_outputs(nodes: &mut [u8], from: usize, number: usize, frames: &mut [u8], frame: usize)
    ensures { OutputsPut (nodes_in nodes.old) (nodes_in nodes.new) (quadwords_in frames.old) (quadwords_in frames.new) from number frame }
{
    let base = word_in(frames, frame, 0);
    let next = word_in(frames, frame, 1);
    let inputs = word_in(frames, frame, 2);
    let made = write_outputs(nodes, from, number, next);
    put_quadword(
        frames,
        frame,
        base,
        next + made.labels % WORD_END,
        inputs,
        0,
    );
}

// The step where the walk has stopped at an apply whose first part is a gate. `labels` is lent to work in.
pub fn apply_gate(
    nodes: &mut [u8],
    stack: &[u8],
    labels: &mut [u8],
    gates: &mut [u8],
    frames: &mut [u8],
    numbers: StateNumbers,
    allowance: usize,
) -> Option<StateNumbers>
    ensures { most_entries ≤ length (words labels.old) → (cs : List Quadword) (ws : List ℕ) (results : ℕ → List ℕ)
        → kind (node_at (nodes_in nodes.old) (stack_node (quadword_at (quadwords_in stack.now) (numbers.place.depth - 1)) + 1)) ≡ gate_term_kind
        → Steps at_apply allowance
        (memory (nodes_in nodes.old) (quadwords_in stack.now) (quadwords_in gates.old) cs (quadwords_in frames.old) ws results)
        (memory (nodes_in nodes.new) (quadwords_in stack.now) (quadwords_in gates.new) cs (quadwords_in frames.new) ws results)
        numbers result }
{
    let StateNumbers { place, counts } = numbers;
    let depth = place.depth.saturating_sub(1);
    let at = stack_node(stack, depth);
    let number = argument_at(nodes, at + 1);
    let size = output_size(number);
    let rest = (nodes.len() / 4).saturating_sub(place.right);
    if exceed(MOST_NODES, at, size, rest) || exceed(allowance, counts.gates, counts.kept, 1) {
        return None;
    }
    let start = stack_start(stack, depth);
    let count = place.left.saturating_sub(start);
    put_gate(nodes, start, count, labels, gates, counts.gates, number);
    let right = place.right.saturating_sub(size);
    let frame = counts.frames.saturating_sub(1);
    put_outputs(nodes, right, number, frames, frame);
    Some(StateNumbers {
        place: Place {
            left: at,
            right,
            depth,
            returning: false,
        },
        counts: Counts {
            gates: counts.gates + 1,
            ..counts
        },
    })
}
