// Nodes of terms in a lent buffer: two words a node, its kind and its argument.
// Nothing to believe. nodes_in (specs/Nodes) is the buffer as a list of nodes.
// Main laws: node_put (proofs/Laws/Nodes), nodes_copied (proofs/Laws/Bytes), span_tree (proofs/Laws/Spans).
// Called by the walk, the substitution, the steps, loading and the writer of listings.
#![tactic(auto)]

ghost use Rattle.std.specs.Prelude.{◌+◌, ◌*◌, ◌/◌, ◌<◌, ◌≤◌, ◌≡◌, [], ◌∷◌, length, drop};
ghost use Rattle.words.specs.Words.{put_words};
ghost use Rattle.machine_terms.specs.Trees.{kind, argument, parts};
ghost use Rattle.machine_nodes.specs.Nodes.{nodes_in, node_at};
ghost use Rattle.machine_nodes.specs.Spans.{span};
ghost use Rattle.machine_nodes.specs.Copying.{copied, copy_nodes};

use rules::kinds::{CONSTANT, UNIT_VALUE, VARIABLE};
use rules::parts::parts_of_kind;
use words::runs_past;

// Word k of node i: no test of its place is left to the compiled code, which reads a node at each move of the walk.
fn word_of(nodes: &[u8], i: usize, k: usize) -> usize
    requires in_bounds { i < length nodes.now / 4 }
    requires one_of_two { k < 2 }
    ensures of_kind { k ≡ 0 → result ≡ kind (node_at (nodes_in nodes.now) i) }
    ensures of_argument { k ≡ 1 → result ≡ argument (node_at (nodes_in nodes.now) i) }
    ensures upper_bound { result < 65536 }
{
    let at = 4 * i + 2 * k;
    nodes[at] as usize + 256 * (nodes[at + 1] as usize)
}

// The kind of node i; 0 past the end.
#[tactic(auto, using(crate::proofs::Laws::Nodes::past_in))]
pub fn kind_at(nodes: &[u8], i: usize) -> usize
    ensures value { result ≡ kind (node_at (nodes_in nodes.now) i) }
    ensures upper_bound { result < 65536 }
{
    if nodes.len() / 4 <= i {
        return 0;
    }
    word_of(nodes, i, 0)
}

// The argument of node i; 0 past the end.
#[tactic(auto, using(crate::proofs::Laws::Nodes::past_in))]
pub fn argument_at(nodes: &[u8], i: usize) -> usize
    ensures value { result ≡ argument (node_at (nodes_in nodes.now) i) }
    ensures upper_bound { result < 65536 }
{
    if nodes.len() / 4 <= i {
        return 0;
    }
    word_of(nodes, i, 1)
}

// Node i becomes this one; past the end nothing changes. The nodes then: node_put of proofs/Laws/Nodes.antt. Byte by byte: for each word a
// cast, a slice and a copy would be no plainer.
pub fn put_node(nodes: &mut [u8], i: usize, kind: usize, argument: usize)
    ensures { nodes.new ≡ put_words 2 nodes.old i (kind ∷ argument ∷ []) }
{
    let n = nodes.len() / 4;
    if n <= i {
        return;
    }
    let at = 4 * i;
    nodes[at] = (kind % 256) as u8;
    nodes[at + 1] = (kind / 256 % 256) as u8;
    nodes[at + 2] = (argument % 256) as u8;
    nodes[at + 3] = (argument / 256 % 256) as u8;
}

// How many parts follow a kind; 3 for a number that is no kind, as the definition `parts` has it.
#[tactic(auto, using(rules::proofs::Laws::Parts::at_most_two_lem), unfolding(machine_terms::specs::Trees::parts))]
pub fn parts_of(kind: usize) -> usize
    ensures value { result ≡ parts kind }
    ensures upper_bound { result ≤ 3 }
{
    match kind {
        VARIABLE..=UNIT_VALUE => parts_of_kind(kind),
        CONSTANT => 0,
        _ => 3,
    }
}

// Where the tree ends that starts at a node: the place behind its last node.
pub fn subtree_end(nodes: &[u8], at: usize) -> usize
    ensures { result ≡ at + span (drop at (nodes_in nodes.now)) 1 }
{
    let n = nodes.len() / 4;
    let mut waiting: usize = 1;
    for i in at..n {
        if waiting == 0 {
            return i;
        }
        waiting = waiting + parts_of(kind_at(nodes, i)) - 1;
    }
    at.max(n)
}

// A node is copied to another place. All its bytes are read before one is written: the compiler then moves them as one.
fn copy_node(nodes: &mut [u8], from: usize, to: usize)
    requires { (from < length nodes.old / 4) × (to < length nodes.old / 4) }
    ensures { nodes.new ≡ copied nodes.old (4 * from) (4 * to) 4 }
{
    let source = 4 * from;
    let first = nodes[source];
    let second = nodes[source + 1];
    let third = nodes[source + 2];
    let fourth = nodes[source + 3];
    let at = 4 * to;
    nodes[at] = first;
    nodes[at + 1] = second;
    nodes[at + 2] = third;
    nodes[at + 3] = fourth;
}

// Nodes are copied one by one.
fn copy_few(nodes: &mut [u8], from: usize, to: usize, count: usize)
    requires { (from + count ≤ length nodes.old / 4) × (to + count ≤ length nodes.old / 4) }
    ensures { nodes.new ≡ copied nodes.old (4 * from) (4 * to) (4 * count) }
{
    for i in 0..count {
        copy_node(nodes, from + i, to + i);
    }
}

// Nodes are copied byte by byte: the compiler then moves many bytes at a time. `copy_within` gives other bytes than `copied` of
// specs/Copying where the other place is behind the first and before the last of them.
fn copy_many(nodes: &mut [u8], from: usize, to: usize, count: usize)
    requires { (from + count ≤ length nodes.old / 4) × (to + count ≤ length nodes.old / 4) }
    ensures { nodes.new ≡ copied nodes.old (4 * from) (4 * to) (4 * count) }
{
    let source = 4 * from;
    let at = 4 * to;
    for i in 0..4 * count {
        nodes[at + i] = nodes[source + i];
    }
}

// Fewer nodes than these are copied one by one.
const FEW: usize = 5;

// So many nodes are copied from one place to another, the first one first. Where they do not stand in the buffer, or there is
// no room for them, nothing changes. The nodes then: nodes_copied of proofs/Laws/Bytes.antt.
#[tactic(auto, unfolding(crate::specs::Copying::copy_nodes))]
pub fn copy_nodes(nodes: &mut [u8], from: usize, to: usize, count: usize)
    ensures { nodes.new ≡ copy_nodes nodes.old from to count }
{
    let n = nodes.len() / 4;
    if runs_past(n, from, count) || runs_past(n, to, count) {
        return;
    }
    if count < FEW {
        copy_few(nodes, from, to, count);
    } else {
        copy_many(nodes, from, to, count);
    }
}
