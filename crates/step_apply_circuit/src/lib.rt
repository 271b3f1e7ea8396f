// Apply of a closed circuit in lent memory. 01: "Apply copies the constant's gates in order, its inputs matched to the argument
// tuple left to right, new outputs numbered on. The result tuple is renamed likewise".
// Nothing to believe: it meets the contract Steps of crate machine_state.
// Main laws: proofs/Laws/Stepping and proofs/Laws/Outcomes.
// Called by machine_steps.
#![tactic(auto)]

ghost use Rattle.std.specs.Prelude.{ℕ, ◌+◌, ◌-◌, ◌*◌, ◌/◌, ◌%◌, ◌≤◌, ◌<◌, ◌≡◌, true, false, List, length};
ghost use Rattle.rules.specs.Kinds.{gate_term_kind};
ghost use Rattle.rules.specs.Types.{most_entries};
ghost use Rattle.rules.specs.Terms.{Tuple};
ghost use Rattle.machine_terms.specs.Trees.{kind};
ghost use Rattle.machine_terms.specs.Walks.{at_apply};
ghost use Rattle.words.specs.Words.{words};
ghost use Rattle.machine_nodes.specs.Nodes.{nodes_in, node_at};
ghost use Rattle.words.specs.Regions.{over};
ghost use Rattle.words.specs.Quadwords.{quadword_at, quadwords_in};
ghost use Rattle.machine_walk.specs.Stack.{stack_node};
ghost use Rattle.machine_circuits.specs.Layout.{four_results, most_result, results_each};
ghost use Rattle.machine_circuits.specs.Renamings.{labels_of};
ghost use Rattle.machine_circuits.specs.Results.{ResultFits, result_nodes};
ghost use Rattle.machine_state.specs.Memory.{memory as memory_of};
ghost use Rattle.machine_state.specs.Outcomes.{Steps};
ghost use Rattle.step_apply_circuit.specs.Redexes.{RedexRead, Room, Writable, numbers_after, Applied};

use machine_circuits::closed::{closed_circuit, result_buffer, result_start};
use machine_circuits::gates::{copy_gates, wires_made};
use machine_circuits::renamings::Renaming;
use machine_circuits::tuples::{collect_labels, load_result};
use machine_nodes::argument_at;
use machine_state::{Counts, StateNumbers, exceed};
use machine_walk::Place;
use machine_walk::stack::{stack_node, stack_start};
use rules::sizes::MOST_NODES;
use rules::slots::NO_WIRE;
use words::quadwords::{put_quadword, word_in};

// What is read before anything is written.
#[derive(Clone, Copy)]
struct Redex {
    // The place of the apply, and where its argument starts.
    at: usize,
    start: usize,
    // The closed circuit: its number, the quadword of its first gate, how many gates it has, how many nodes its result has,
    // and how many wires its gates make.
    index: usize,
    first: usize,
    gates: usize,
    nodes: usize,
    // The innermost frame: the quadword of its first gate, how many wires its circuit has made, and how many are inputs.
    base: usize,
    next: usize,
    inputs: usize,
    made: usize,
}

// The apply whose quadword is on top of the stack, with the quadword of the innermost frame.
fn read_redex(
    nodes: &[u8],
    stack: &[u8],
    gates: &[u8],
    circuits: &[u8],
    frames: &[u8],
    top: usize,
    innermost: usize,
) -> Redex
    ensures { RedexRead (nodes_in nodes.now) (quadwords_in stack.now) (quadwords_in gates.now) (quadwords_in circuits.now)
        (quadwords_in frames.now) top innermost result }
{
    let at = stack_node(stack, top);
    let index = argument_at(nodes, at + 1);
    let circuit = closed_circuit(circuits, index);
    Redex {
        at,
        start: stack_start(stack, top),
        index,
        first: circuit.first,
        gates: circuit.gates,
        nodes: circuit.nodes,
        base: word_in(frames, innermost, 0),
        next: word_in(frames, innermost, 1),
        inputs: word_in(frames, innermost, 2),
        made: wires_made(gates, circuit.first, circuit.gates),
    }
}

// Is there room for the step, in memory with so many nodes?
fn has_room(redex: Redex, numbers: StateNumbers, size: usize, allowance: usize) -> bool
    ensures room { result ≡ true → Room redex numbers size allowance }
    ensures no_room { result ≡ false → Room redex numbers size allowance → ⊥ }
{
    let StateNumbers { place, counts } = numbers;
    redex.start <= place.left
        && place.right <= size
        && redex.nodes <= place.right
        && redex.made <= NO_WIRE
        && !exceed(MOST_NODES, redex.at, redex.nodes, size - place.right)
        && !exceed(allowance, counts.gates, counts.kept, redex.gates)
}

// The result of closed circuit i is loaded from the buffer that has it.
fn load_constant(
    results0: &[u8],
    results1: &[u8],
    results2: &[u8],
    results3: &[u8],
    i: usize,
    count: usize,
    nodes: &mut [u8],
    to: usize,
    renaming: Renaming,
)
    ensures { let r = renaming.entry in (k : Tuple) (m : ℕ)
        → ResultFits k m (four_results (words results0.now) (words results1.now) (words results2.now) (words results3.now) (i / results_each))
        (most_result * (i % results_each)) count (length (nodes_in nodes.old)) to (length (words r.labels.now)) r.inputs r.next
        → nodes_in nodes.new ≡ over (nodes_in nodes.old) to (result_nodes k (labels_of r) r.next) }
{
    let results = match result_buffer(i) {
        0 => results0,
        1 => results1,
        2 => results2,
        3 => results3,
        _ => return,
    };
    load_result(results, result_start(i), count, nodes, to, renaming);
}

// The place and the counts after the step.
fn numbers_after(redex: Redex, numbers: StateNumbers) -> StateNumbers
    requires { Writable redex numbers }
    ensures { result ≡ numbers_after redex numbers }
{
    let StateNumbers { place, counts } = numbers;
    StateNumbers {
        place: Place {
            left: redex.at,
            right: place.right - redex.nodes,
            depth: place.depth - 1,
            returning: false,
        },
        counts: Counts {
            gates: counts.gates + redex.gates,
            ..counts
        },
    }
}

// The gates of the closed circuit are appended to the innermost circuit, and its result stands in the place of the apply.
fn append_constant(
    nodes: &mut [u8],
    labels: &mut [u8],
    gates: &mut [u8],
    frames: &mut [u8],
    results0: &[u8],
    results1: &[u8],
    results2: &[u8],
    results3: &[u8],
    redex: Redex,
    numbers: StateNumbers,
) -> StateNumbers
    requires { Writable redex numbers }
    ensures { Applied (nodes_in nodes.old) (nodes_in nodes.new) (length (words labels.old))
        (quadwords_in gates.old) (quadwords_in gates.new) (quadwords_in frames.old) (quadwords_in frames.new)
        (four_results (words results0.now) (words results1.now) (words results2.now) (words results3.now)) redex numbers result }
{
    let StateNumbers { place, counts } = numbers;
    let found = collect_labels(nodes, redex.start, place.left - redex.start, labels);
    let renaming = Renaming::new(labels, found, redex.next);
    copy_gates(gates, redex.first, redex.gates, counts.gates, renaming);
    load_constant(
        results0,
        results1,
        results2,
        results3,
        redex.index,
        redex.nodes,
        nodes,
        place.right - redex.nodes,
        renaming,
    );
    put_quadword(
        frames,
        counts.frames - 1,
        redex.base,
        redex.next + redex.made,
        redex.inputs,
        0,
    );
    numbers_after(redex, numbers)
}

// Apply of a closed circuit, at the stop of the walk at an apply whose first part is no gate. `labels` is room for the labels
// of the argument, at least 512 words.
pub fn apply_constant(
    nodes: &mut [u8],
    stack: &[u8],
    labels: &mut [u8],
    gates: &mut [u8],
    circuits: &[u8],
    frames: &mut [u8],
    results0: &[u8],
    results1: &[u8],
    results2: &[u8],
    results3: &[u8],
    numbers: StateNumbers,
    allowance: usize,
) -> Option<StateNumbers>
    ensures { most_entries ≤ length (words labels.old) → (ws : List ℕ)
        → (kind (node_at (nodes_in nodes.old) (stack_node (quadword_at (quadwords_in stack.now) (numbers.place.depth - 1)) + 1)) ≡ gate_term_kind → ⊥)
        → Steps at_apply allowance
        (memory_of (nodes_in nodes.old) (quadwords_in stack.now) (quadwords_in gates.old) (quadwords_in circuits.now)
        (quadwords_in frames.old) ws
        (four_results (words results0.now) (words results1.now) (words results2.now) (words results3.now)))
        (memory_of (nodes_in nodes.new) (quadwords_in stack.now) (quadwords_in gates.new) (quadwords_in circuits.now)
        (quadwords_in frames.new) ws
        (four_results (words results0.now) (words results1.now) (words results2.now) (words results3.now)))
        numbers result }
{
    let StateNumbers { place, counts } = numbers;
    if place.depth == 0 || counts.frames == 0 {
        return None;
    }
    let redex = read_redex(
        nodes,
        stack,
        gates,
        circuits,
        frames,
        place.depth - 1,
        counts.frames - 1,
    );
    if !has_room(redex, numbers, nodes.len() / 4, allowance) {
        return None;
    }
    Some(append_constant(
        nodes, labels, gates, frames, results0, results1, results2, results3, redex, numbers,
    ))
}
