// Label tuples: as nodes of a term, as the results of closed circuits, and as the tuple of a type's wires.
ghost use Rattle.std.specs.Prelude.{ℕ, ◌+◌, ◌-◌, ◌^◌, ◌≤◌, ◌<◌, ◌≡◌, T as Truth, length, get_or, set, take, drop};
ghost use Rattle.std.proofs.Math.Option.{some};
ghost use Rattle.rules.specs.Types.{Ty, is_wire_type, wires, entries, type_codes};
ghost use Rattle.rules.specs.Terms.{Tuple};
ghost use Rattle.rules.specs.Gates.{gate_type, ◌to◌ as gate_from};
ghost use Rattle.rules.specs.GateCodes.{circ_codes};
ghost use Rattle.machine_terms.specs.Trees.{Tree, preorder, tuple_of_tree};
ghost use Rattle.words.specs.Words.{words};
ghost use Rattle.rules.specs.Slots.{no_wire};
ghost use Rattle.machine_circuits.specs.Layout.{tuple_words};
ghost use Rattle.machine_nodes.specs.Nodes.{nodes_in, node_at};
ghost use Rattle.words.specs.Regions.{over, Stands};
ghost use Rattle.machine_circuits.specs.Tuples.{word_of, part_node, loaded_node, node_of_code, label_after, code_span, codes_of};
ghost use Rattle.machine_circuits.specs.Renamings.{labels_of, Usable};
ghost use Rattle.machine_circuits.specs.Results.{LabelsCollected, ResultFits, result_nodes, TupleWritten};

use crate::renamings::Renaming;
use machine_nodes::{argument_at, kind_at, put_node};
use rules::kinds::{LABEL, PAIR, PAIR_TYPE, UNIT, UNIT_VALUE};
use rules::parts::parts_of_kind;
use rules::sizes::MOST_TYPES;
use rules::slots::NO_WIRE;
use words::runs_past;

// The codes of the type section stand in the words of the types' buffer from 0 on, those of the labels' types from here on.
pub const LABELS_FROM: usize = MOST_TYPES;

// What stands for unit's value in a result, where a label could stand: labels are far below.
const NO_LABEL: usize = 65534;

// The size of a tuple.
#[derive(Default, Drop)]
pub struct TupleSize {
    // How many nodes it has.
    pub nodes: usize,
    // How many of them are labels.
    pub labels: usize,
}

// Where the codes of a type come from: the type section, in the buffer of the types, or the type of the gate with a number.
#[derive(Clone, Copy)]
enum Source<'a> {
    Section(&'a [u8]),
    Gate(usize),
}

// The labels of the tuple at a place are written as words, in order; answers how many there are.
pub fn collect_labels(nodes: &[u8], at: usize, count: usize, labels: &mut [u8]) -> usize
    ensures { (v : Tree) (k : Tuple) → tuple_of_tree v ≡ some k → Stands (nodes_in nodes.now) at (preorder v) → count ≡ length (preorder v)
        → count ≤ length (words labels.old)
        → LabelsCollected k (words labels.new) result }
{
    if runs_past(nodes.len() / 4, at, count) {
        return 0;
    }
    let mut found: usize = 0;
    for i in 0..count {
        if kind_at(nodes, at + i) == LABEL {
            words::put(labels, found, argument_at(nodes, at + i));
            found += 1;
        }
    }
    found
}

// The word of a node in a result.
fn result_word(nodes: &[u8], i: usize) -> usize
    ensures value { result ≡ word_of (node_at (nodes_in nodes.now) i) }
    ensures upper_bound { result < 65536 }
{
    match kind_at(nodes, i) {
        PAIR => NO_WIRE,
        UNIT_VALUE => NO_LABEL,
        _ => argument_at(nodes, i),
    }
}

// The tuple at a place is saved as a result: a word a node, from a word on.
pub fn save_result(nodes: &[u8], at: usize, count: usize, res: &mut [u8], from: usize)
    ensures { (v : Tree) (k : Tuple) → tuple_of_tree v ≡ some k → Stands (nodes_in nodes.now) at (preorder v) → count ≡ length (preorder v)
        → from + count ≤ length (words res.old)
        → words res.new ≡ over (words res.old) from (tuple_words k) }
{
    if runs_past(nodes.len() / 4, at, count) || runs_past(res.len() / 2, from, count) {
        return;
    }
    for i in 0..count {
        words::put(res, from + i, result_word(nodes, at + i));
    }
}

// A node of a tuple is put, by a word or a code: a pair for the one that says so, unit's value for another, else this label.
fn put_part(nodes: &mut [u8], to: usize, word: usize, pair: usize, unit: usize, label: usize)
    ensures { nodes_in nodes.new ≡ set (nodes_in nodes.old) to (part_node word pair unit label) }
{
    if word == pair {
        put_node(nodes, to, PAIR, 0);
    } else if word == unit {
        put_node(nodes, to, UNIT_VALUE, 0);
    } else {
        put_node(nodes, to, LABEL, label);
    }
}

// A word of a result becomes a node, its wire renamed.
fn load_node(word: usize, nodes: &mut [u8], to: usize, renaming: Renaming)
    requires { word < 65536 }
    ensures { Usable renaming.entry
        → nodes_in nodes.new ≡ set (nodes_in nodes.old) to (loaded_node (labels_of renaming.entry) renaming.entry.next word) }
{
    put_part(nodes, to, word, NO_WIRE, NO_LABEL, renaming.number_of(word));
}

// The result of a closed circuit is loaded as the nodes of a tuple, from a node on, with its wires renamed.
pub fn load_result(
    res: &[u8],
    from: usize,
    count: usize,
    nodes: &mut [u8],
    to: usize,
    renaming: Renaming,
)
    ensures { let r = renaming.entry in (k : Tuple) (m : ℕ)
        → ResultFits k m (words res.now) from count (length (nodes_in nodes.old)) to (length (words r.labels.now)) r.inputs r.next
        → nodes_in nodes.new ≡ over (nodes_in nodes.old) to (result_nodes k (labels_of r) r.next) }
{
    if runs_past(res.len() / 2, from, count) || runs_past(nodes.len() / 4, to, count) {
        return;
    }
    for i in 0..count {
        load_node(words::get(res, from + i), nodes, to + i, renaming);
    }
}

impl Source<'_> {
    // How many codes it has.
    fn count(self) -> usize
        ensures { result ≡ length (codes_of self.entry) }
    {
        match self {
            Source::Section(types) => types.len() / 2,
            Source::Gate(number) => rules::type_entries(number),
        }
    }

    // Its code i.
    fn code(self, i: usize) -> usize
        ensures { i < length (codes_of self.entry) → result ≡ get_or (codes_of self.entry) i 0 }
    {
        match self {
            Source::Section(types) => words::get(types, i),
            Source::Gate(number) => rules::type_code(number, i) as usize,
        }
    }

    // Where the type at a position ends: behind each entry its parts wait, the first of them at hand. subtree_end of machine_nodes counts
    // parts likewise, but from one that waits and over kinds of nodes, of which a number that is none has parts too.
    fn type_end(self, position: usize) -> usize
        ensures { result ≡ position + code_span (drop position (codes_of self.entry)) 1 }
    {
        let end = self.count();
        let mut waiting: usize = 0;
        for i in position..end {
            match parts_of_kind(self.code(i)) {
                0 if waiting == 0 => return i + 1,
                0 => waiting -= 1,
                parts => waiting += parts - 1,
            }
        }
        end.max(position)
    }
}

// A type's entry becomes a node of the tuple of its wires, with this label if it is a wire; answers the next label.
fn put_code(nodes: &mut [u8], to: usize, code: usize, label: usize) -> usize
    requires { label + 1 < 2 ^ 64 }
    ensures nodes_after { nodes_in nodes.new ≡ set (nodes_in nodes.old) to (node_of_code label code) }
    ensures value { result ≡ label_after label code }
{
    put_part(nodes, to, code, PAIR_TYPE, UNIT, label);
    if code == PAIR_TYPE || code == UNIT {
        label
    } else {
        label + 1
    }
}

// The tuple of the wires of the type at a position, which has so many entries, is written from a node on, its labels numbered
// from the first on.
fn write_type(
    source: Source,
    position: usize,
    count: usize,
    nodes: &mut [u8],
    to: usize,
    first: usize,
) -> TupleSize
    requires count_in_bounds { count ≤ length (codes_of source) - position }
    requires count_bound { position + count < 2 ^ 64 }
    ensures { (T : Ty) → Truth (is_wire_type T) → Stands (codes_of source.entry) position (type_codes T) → count ≡ entries T
        → to + entries T ≤ length (nodes_in nodes.old) → first + length (wires T) ≤ no_wire
        → TupleWritten T first (nodes_in nodes.old) (nodes_in nodes.new) to result.nodes result.labels }
{
    if runs_past(nodes.len() / 4, to, count) || NO_WIRE < first {
        return TupleSize::default();
    }
    let mut label = first;
    for i in 0..count {
        label = put_code(nodes, to + i, source.code(position + i), label);
    }
    TupleSize {
        nodes: count,
        labels: label - first,
    }
}

// How many entries the wire type at a position of the type section has.
pub fn type_size(types: &[u8], position: usize) -> usize
    ensures { result ≡ code_span (drop position (words types.now)) 1 }
{
    Source::Section(types).type_end(position) - position
}

// The tuple of the wires of the type at a position of the type section, which has so many entries, is written from a node on,
// its labels numbered from the first on.
pub fn write_tuple(
    types: &[u8],
    position: usize,
    count: usize,
    nodes: &mut [u8],
    to: usize,
    first: usize,
) -> TupleSize
    ensures { (T : Ty) → Truth (is_wire_type T) → Stands (words types.now) position (type_codes T) → count ≡ entries T
        → to + entries T ≤ length (nodes_in nodes.old) → first + length (wires T) ≤ no_wire
        → TupleWritten T first (nodes_in nodes.old) (nodes_in nodes.new) to result.nodes result.labels }
{
    if (types.len() / 2).saturating_sub(position) < count {
        return TupleSize::default();
    }
    write_type(Source::Section(types), position, count, nodes, to, first)
}

// Where the type of a gate's output starts: behind the first entry of the gate's type, Circ, and the type of its input.
fn output_start(number: usize) -> usize
    ensures { result ≡ 1 + code_span (drop 1 (circ_codes (gate_type number))) 1 }
{
    Source::Gate(number).type_end(1)
}

// How many nodes the tuple of the wires that a gate makes has: one for each entry of its output's type, which takes all
// entries of the gate's type from its start on.
pub fn output_size(number: usize) -> usize
    ensures { (T U : Ty) → gate_type number ≡ some (gate_from T U) → result ≡ entries U }
{
    rules::type_entries(number).saturating_sub(output_start(number))
}

// The tuple of the wires that a gate makes is written from a node on, its labels numbered from the next number on.
pub fn write_outputs(nodes: &mut [u8], to: usize, number: usize, next: usize) -> TupleSize
    ensures { (T U : Ty) → gate_type number ≡ some (gate_from T U)
        → to + entries U ≤ length (nodes_in nodes.old) → next + length (wires U) ≤ no_wire
        → TupleWritten U next (nodes_in nodes.old) (nodes_in nodes.new) to result.nodes result.labels }
{
    let start = output_start(number);
    let count = rules::type_entries(number).saturating_sub(start);
    write_type(Source::Gate(number), start, count, nodes, to, next)
}
