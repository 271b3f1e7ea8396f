// Box entry in lent memory (01: "opens an empty circuit with one new label for each wire of T, left to right from 0, and
// evaluates M applied to that tuple"). The box's node and its lift stay among the walked nodes; the application is written in
// front of those still to be walked.
// Nothing to believe: it meets the contract Steps of crate machine_state. Main laws: proofs/Laws/Stepping.
// Called by machine_steps.
#![tactic(auto)]

ghost use Rattle.std.specs.Prelude.{ℕ, ◌+◌, ◌-◌, ◌^◌, ◌%◌, ◌≤◌, ◌<◌, ◌≡◌, List, length, set};
ghost use Rattle.words.specs.Words.{words};
ghost use Rattle.machine_terms.specs.Walks.{at_box};
ghost use Rattle.machine_nodes.specs.Nodes.{nodes_in};
ghost use Rattle.machine_walk.specs.Stack.{stack_entry};
ghost use Rattle.words.specs.Quadwords.{Quadword, quadword, quadwords_in};
ghost use Rattle.machine_state.specs.Memory.{memory};
ghost use Rattle.machine_state.specs.Outcomes.{Steps};
ghost use Rattle.step_box_entry.specs.Opening.{RoomFor, Measures, Writes, entered};

use machine_circuits::tuples::{type_size, write_tuple};
use machine_nodes::{argument_at, copy_nodes, put_node};
use machine_state::{Counts, StateNumbers, exceed};
use machine_walk::Place;
use machine_walk::stack::{OPENED, UNUSED, stack_node};
use rules::kinds::APPLICATION;
use rules::sizes::MOST_NODES;
use words::quadwords::put_quadword;

// What box entry writes, and of which box.
#[derive(Clone, Copy)]
struct Entry {
    // The place of the box's node.
    at: usize,
    // The position of its type.
    position: usize,
    // How many entries that has.
    size: usize,
    // How many nodes its lift's body has.
    count: usize,
    // The place of the first new node.
    to: usize,
}

// The least number of nodes that a buffer has room for.
const LEAST_NODES: usize = 4 * MOST_NODES;

// Do so many new nodes fit in front of those still to be walked, in a buffer of n nodes?
fn has_room(n: usize, left: usize, right: usize, new: usize) -> bool
    requires { n < 2 ^ 63 }
    ensures { RoomFor n left right new result }
{
    LEAST_NODES <= n && right <= n && !exceed(MOST_NODES, left, new, n - right)
}

// What box entry writes at a place where the walk has stopped, if it fits: the application's node, the lift's body, and a tuple with
// as many nodes as the type has entries.
fn measure(nodes: &[u8], stack: &[u8], types: &[u8], place: Place) -> Option<Entry>
    ensures { Measures (nodes_in nodes.now) (quadwords_in stack.now) (words types.now) place result }
{
    let Place { left, right, .. } = place;
    let at = stack_node(stack, place.depth.checked_sub(1)?);
    let count = left.checked_sub(at + 2)?;
    let position = argument_at(nodes, at);
    let size = type_size(types, position);
    if MOST_NODES < left {
        return None;
    }
    let new = 1 + count + size;
    if !has_room(nodes.len() / 4, left, right, new) {
        return None;
    }
    Some(Entry {
        at,
        position,
        size,
        count,
        to: right - new,
    })
}

// The application is written, its last nodes first; answers how many labels its tuple has.
fn write_application(nodes: &mut [u8], types: &[u8], entry: Entry) -> usize
    requires { (entry.at + 2 + entry.count ≤ entry.to) × (entry.to + 1 + entry.count ≤ length (nodes_in nodes.old)) }
    ensures { Writes (nodes_in nodes.old) (nodes_in nodes.new) (words types.now) entry result }
{
    let Entry { at, to, count, .. } = entry;
    let tuple = write_tuple(types, entry.position, entry.size, nodes, to + 1 + count, 0);
    copy_nodes(nodes, at + 2, to + 1, count);
    put_node(nodes, to, APPLICATION, 0);
    tuple.labels
}

// The box's quadword says that it is open and where the frame above starts; the new frame's quadword, that its circuit has no gate
// yet and so many inputs.
fn put_frame(stack: &mut [u8], frames: &mut [u8], numbers: StateNumbers, at: usize, wires: usize)
    requires { 0 < numbers.place.depth }
    ensures stack_after { quadwords_in stack.new ≡ set (quadwords_in stack.old) (numbers.place.depth - 1) (stack_entry 3 (at % 65536) (numbers.place.left % 65536)) }
    ensures frames_after { quadwords_in frames.new
        ≡ set (quadwords_in frames.old) numbers.counts.frames (quadword (numbers.counts.gates % 65536) (wires % 65536) (wires % 65536) 0) }
{
    let StateNumbers { place, counts } = numbers;
    put_quadword(stack, place.depth - 1, OPENED, at, place.left, UNUSED);
    put_quadword(frames, counts.frames, counts.gates, wires, wires, 0);
}

// The numbers after box entry: the walked nodes are the same, the application is next to be walked, there is one more
// frame.
fn numbers_after(numbers: StateNumbers, entry: Entry) -> StateNumbers
    requires { numbers.counts.frames + 1 < 2 ^ 64 }
    ensures { result ≡ entered numbers.place numbers.counts entry }
{
    let StateNumbers { place, counts } = numbers;
    StateNumbers {
        place: Place {
            right: entry.to,
            returning: false,
            ..place
        },
        counts: Counts {
            frames: counts.frames + 1,
            ..counts
        },
    }
}

// The step at a box whose part is a lift. Nothing is written where the next configuration would exceed a size.
pub fn open_box(
    nodes: &mut [u8],
    stack: &mut [u8],
    types: &[u8],
    frames: &mut [u8],
    numbers: StateNumbers,
) -> Option<StateNumbers>
    ensures { (gs cs : List Quadword) (results : ℕ → List ℕ) (allowance : ℕ) → Steps at_box allowance
        (memory (nodes_in nodes.old) (quadwords_in stack.old) gs cs (quadwords_in frames.old) (words types.now) results)
        (memory (nodes_in nodes.new) (quadwords_in stack.new) gs cs (quadwords_in frames.new) (words types.now) results)
        numbers result }
{
    if frames.len() / 8 <= numbers.counts.frames {
        return None;
    }
    let entry = measure(nodes, stack, types, numbers.place)?;
    let wires = write_application(nodes, types, entry);
    put_frame(stack, frames, numbers, entry.at, wires);
    Some(numbers_after(numbers, entry))
}
