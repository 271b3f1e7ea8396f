// The closed circuits, a quadword each in the order in which they were closed: the type position of its input, the quadword of its
// first gate, the number of its gates, the number of nodes of its result. Results stand in slots of four buffers.
ghost use Rattle.std.specs.Prelude.{◌*◌, ◌/◌, ◌%◌, ◌≡◌};
ghost use Rattle.words.specs.Quadwords.{quadwords_in, quadword_at, word_in};
ghost use Rattle.machine_circuits.specs.Layout.{most_result, results_each};

use rules::sizes::{MOST_BOXES, MOST_ENTRIES};
use words::quadwords::word_in;

// A result has room for as many words as a type may have entries, one word a node; a result buffer has room for so many.
const RESULTS_EACH: usize = MOST_BOXES / 4;

// What stands in the quadword of a closed circuit.
#[derive(Drop)]
pub struct ClosedCircuit {
    // The type position of its input.
    pub position: usize,
    // The quadword of its first gate.
    pub first: usize,
    // How many gates it has.
    pub gates: usize,
    // How many nodes its result has.
    pub nodes: usize,
}

// The quadword of closed circuit i; zeros past the end.
pub fn closed_circuit(circuits: &[u8], i: usize) -> ClosedCircuit
    ensures position_value { result.position ≡ word_in (quadword_at (quadwords_in circuits.now) i) 0 }
    ensures first_value { result.first ≡ word_in (quadword_at (quadwords_in circuits.now) i) 1 }
    ensures gates_value { result.gates ≡ word_in (quadword_at (quadwords_in circuits.now) i) 2 }
    ensures nodes_value { result.nodes ≡ word_in (quadword_at (quadwords_in circuits.now) i) 3 }
{
    ClosedCircuit {
        position: word_in(circuits, i, 0),
        first: word_in(circuits, i, 1),
        gates: word_in(circuits, i, 2),
        nodes: word_in(circuits, i, 3),
    }
}

// The number of the buffer that has the result of closed circuit i.
pub fn result_buffer(i: usize) -> usize
    ensures { result ≡ i / results_each }
{
    i / RESULTS_EACH
}

// The word of that buffer at which the result starts.
pub fn result_start(i: usize) -> usize
    ensures { result ≡ most_result * (i % results_each) }
{
    MOST_ENTRIES * (i % RESULTS_EACH)
}
