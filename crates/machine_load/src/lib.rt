// The start of an accepted file, put into lent memory.
// Nothing to believe. Loads (specs/Start) says that the memory then holds the rules' start of that file.
// Main law: loaded (proofs/Laws/Loading).
// Called by the run, once a file is checked.
#![tactic(auto)]

ghost use Rattle.std.specs.Prelude.{◌+◌, ◌<◌, ◌≤◌, ◌≡◌, length};
ghost use Rattle.program.specs.Format.{entry_count, kind_at};
ghost use Rattle.words.specs.Numbers.{word_at};
ghost use Rattle.words.specs.Words.{words};
ghost use Rattle.machine_nodes.specs.Nodes.{nodes_in};
ghost use Rattle.words.specs.Regions.{over};
ghost use Rattle.words.specs.Quadwords.{quadwords_in};
ghost use Rattle.machine_load.specs.Trees.{values_from, node_from};
ghost use Rattle.machine_load.specs.Start.{numbers_at, Loads};

use machine_circuits::tuples::LABELS_FROM;
use machine_nodes::put_node;
use machine_state::{Counts, StateNumbers};
use machine_walk::Place;
use program::format::{LABELS, TERMS, TYPES, argument_at, kind_at};
use words::quadwords::put_quadword;
use words::word_at;

// Writes so many entries of the term section, from entry `first` on, as nodes from node `to` on.
fn load_terms(file: &[u8], nodes: &mut [u8], first: usize, terms: usize, to: usize)
    requires { (first + terms ≡ entry_count file.now) × (first < 131072) × (terms < 65536) × (to + terms ≤ length (nodes_in nodes.old)) }
    ensures { nodes_in nodes.new ≡ over (nodes_in nodes.old) to (values_from (node_from file.now) first terms) }
{
    for i in 0..terms {
        let kind = kind_at(file, first + i);
        let argument = argument_at(file, first + i);
        put_node(nodes, to + i, kind, argument);
    }
}

// Writes the kinds of so many entries, from entry `from` on, as words from word `to` on; past the end nothing is written.
// Not one function with `load_terms`: a closure that writes an entry would need a longer contract than the loop.
fn load_kinds(file: &[u8], types: &mut [u8], from: usize, count: usize, to: usize)
    requires { (from < 65536) × (count < 65536) × (to < 65536) }
    ensures { to + count ≤ length (words types.old)
        → words types.new ≡ over (words types.old) to (values_from (kind_at file.now) from count) }
{
    for i in 0..count {
        words::put(types, to + i, kind_at(file, from + i));
    }
}

// The numbers at the start, where the nodes from `right` on are to be walked.
fn numbers_at(right: usize) -> StateNumbers
    ensures { result ≡ numbers_at right }
{
    let place = Place {
        left: 0,
        right,
        depth: 0,
        returning: false,
    };
    let counts = Counts {
        frames: 1,
        gates: 0,
        boxes: 0,
        kept: 0,
    };
    StateNumbers { place, counts }
}

// Puts the start configuration of an accepted file into memory: its term's nodes at the end of the nodes' buffer, the kinds
// of its types and of its labels, and the quadword of the outermost frame.
pub fn load(file: &[u8], nodes: &mut [u8], types: &mut [u8], frames: &mut [u8]) -> StateNumbers
    ensures { Loads file.now (nodes_in nodes.new) (words types.new) (quadwords_in frames.new) result }
{
    let labels = word_at(file, LABELS);
    let positions = word_at(file, TYPES);
    let terms = word_at(file, TERMS);
    let n = nodes.len() / 4;
    if n < terms {
        return numbers_at(n);
    }
    let right = n - terms;
    load_terms(file, nodes, labels + positions, terms, right);
    load_kinds(file, types, labels, positions, 0);
    load_kinds(file, types, 0, labels, LABELS_FROM);
    put_quadword(frames, 0, 0, labels, labels, 0);
    numbers_at(right)
}
