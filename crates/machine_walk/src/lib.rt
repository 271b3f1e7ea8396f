// The walk to the next redex, in lent memory. The nodes of all frames stand in one buffer, the walked ones at its start, those
// still to be walked at its end; each opened node has an entry on a stack in a second buffer.
// Nothing to believe. Holds (specs/Places) says which walk on trees the memory holds.
// Main law: reaches_stop (proofs/Laws/Functions), it stops where the walk on trees does; proofs/Laws/Redexes has what the steps
// need there. Called by the machine. No `requires`: in memory that holds no walk the functions end, and nothing is promised.
#![tactic(auto)]

pub mod stack;

ghost use Rattle.std.specs.Prelude.{ℕ, ◌<◌, ◌≡◌, List, true, false, T as Truth, length};
ghost use Rattle.rules.specs.Kinds.{pair_kind};
ghost use Rattle.machine_terms.specs.Trees.{kind, one_kind, two_kind};
ghost use Rattle.machine_terms.specs.Holes.{waits};
ghost use Rattle.machine_terms.specs.Walks.{stop_one};
ghost use Rattle.machine_nodes.specs.Nodes.{nodes_in};
ghost use Rattle.words.specs.Quadwords.{Quadword, quadwords_in};
ghost use Rattle.machine_walk.specs.Places.{stop_of, Moves, Walks};
ghost use Rattle.machine_walk.specs.Heads.{head_with, head_of};
ghost use Rattle.machine_walk.specs.Moving.{Falls, stop_two};
ghost use Rattle.machine_walk.specs.Functions.{Evaluates, ReturnsTo, head_of_tag, MovesStack};
ghost use Rattle.machine_walk.specs.declared.Head.TheVariants.{Value, OnePart, TwoParts};

use crate::stack::{FIRST, ONLY, SECOND, UNUSED, stack_node, stack_tag};
use machine_nodes::{copy_nodes, kind_at, parts_of, subtree_end};
use rules::kinds::{
    ABSTRACTION, APPLICATION, CONSTANT, FORCE, GATE, LABEL, LET, LIFT, PAIR, UNIT_VALUE,
};
use std::ops::ControlFlow;
use words::quadwords::put_quadword;

// Where the walk stands.
#[derive(Clone, Copy, Debug, PartialEq, Eq)]
pub struct Place {
    // The nodes before this place are walked.
    pub left: usize,
    // Those from this place on are still to be walked.
    pub right: usize,
    // How many entries the stack has.
    pub depth: usize,
    // Whether a value is returned to the innermost of them; else the tree at `right` is evaluated.
    pub returning: bool,
}

// Where the walk stops: at a redex, at the end of an open box or of the outermost frame, or at a free variable.
#[derive(Clone, Copy, Debug, PartialEq, Eq)]
pub enum Stop {
    AtApplication,
    AtLet,
    AtForce,
    AtBox,
    AtApply,
    AtExit,
    AtEnd,
    AtVariable,
}

// What one move leads to: the place where the walk goes on, or its stop.
type Moved = ControlFlow<Stop, Place>;

// The place at which the walk has stopped, and where that is.
#[derive(Clone, Copy, Debug, PartialEq, Eq)]
pub struct Stopped {
    // Where the walk stands.
    pub place: Place,
    // What it has stopped at.
    pub stop: Stop,
}

// What is to be done with the tree at `right`: it is a value, the part of its node is evaluated, its first part is, or
// there is nothing to do. One of four ways, and no None.
#[derive(Clone, Copy)]
enum Head {
    Value,
    OnePart,
    TwoParts,
    Neither,
}

// Of a tree that is no value, by the number of its parts.
fn head_with(parts: usize) -> Head
    ensures { result ≡ head_with parts }
{
    match parts {
        1 => Head::OnePart,
        2 => Head::TwoParts,
        _ => Head::Neither,
    }
}

// Of a tree whose first node has this kind.
#[tactic(auto, unfolding(crate::specs::Heads::head_of))]
fn head_of(kind: usize) -> Head
    ensures { result ≡ head_of kind }
{
    match kind {
        LABEL | ABSTRACTION | LIFT | GATE | UNIT_VALUE | CONSTANT => Head::Value,
        _ => head_with(parts_of(kind)),
    }
}

// A value moves with its whole body and is returned.
fn pass_value(nodes: &mut [u8], place: Place) -> Moved
    requires { Evaluates (nodes_in nodes.old) place Value }
    ensures moves { (rs : List Quadword) → Moves (nodes_in nodes.old) rs (nodes_in nodes.new) rs place result }
    ensures falls { Falls (length (nodes_in nodes.old)) place result }
{
    let end = subtree_end(nodes, place.right);
    let count = end - place.right;
    copy_nodes(nodes, place.right, place.left, count);
    ControlFlow::Continue(Place {
        left: place.left + count,
        right: end,
        returning: true,
        ..place
    })
}

// A node with parts moves, its hole is put on the stack with this tag, and its first part is evaluated.
fn open_node(nodes: &mut [u8], stack: &mut [u8], place: Place, tag: usize) -> Moved
    requires tag_bound { tag < 2 }
    requires evaluates { Evaluates (nodes_in nodes.old) place (head_of_tag tag) }
    ensures moves { Moves (nodes_in nodes.old) (quadwords_in stack.old) (nodes_in nodes.new) (quadwords_in stack.new) place result }
    ensures falls { Falls (length (nodes_in nodes.old)) place result }
{
    let left = place.left;
    let right = place.right;
    let depth = place.depth;
    if stack.len() / 8 <= depth {
        return ControlFlow::Break(Stop::AtVariable);
    }
    copy_nodes(nodes, right, left, 1);
    put_quadword(stack, depth, tag, left, 0, UNUSED);
    ControlFlow::Continue(Place {
        left: left + 1,
        right: right + 1,
        depth: depth + 1,
        returning: false,
    })
}

// A move with a tree to evaluate.
fn evaluate(nodes: &mut [u8], stack: &mut [u8], place: Place) -> Moved
    requires { place.returning ≡ false }
    ensures moves { Moves (nodes_in nodes.old) (quadwords_in stack.old) (nodes_in nodes.new) (quadwords_in stack.new) place result }
    ensures falls { Falls (length (nodes_in nodes.old)) place result }
{
    let right = place.right;
    if nodes.len() / 4 <= right || right < place.left {
        return ControlFlow::Break(Stop::AtVariable);
    }
    match head_of(kind_at(nodes, right)) {
        Head::Value => pass_value(nodes, place),
        Head::OnePart => open_node(nodes, stack, place, ONLY),
        Head::TwoParts => open_node(nodes, stack, place, FIRST),
        Head::Neither => ControlFlow::Break(Stop::AtVariable),
    }
}

// The stop at a node of one part whose part is a value.
#[tactic(auto, unfolding(machine_terms::specs::Trees::one_kind))]
fn stop_one(kind: usize) -> Stop
    ensures { Truth (waits (one_kind kind)) → stop_of result ≡ stop_one (one_kind kind) }
{
    if kind == FORCE {
        Stop::AtForce
    } else {
        Stop::AtBox
    }
}

// The stop at a node of two values that is no pair.
#[tactic(auto, unfolding(machine_terms::specs::Trees::two_kind))]
fn stop_two(kind: usize) -> Stop
    requires { kind ≡ pair_kind → ⊥ }
    ensures { stop_of result ≡ stop_two (two_kind kind) }
{
    match kind {
        APPLICATION => Stop::AtApplication,
        LET => Stop::AtLet,
        _ => Stop::AtApply,
    }
}

// A value is complete as the first part of the node at a place, of this kind.
fn return_first(stack: &mut [u8], place: Place, at: usize, kind: usize) -> Moved
    requires { ReturnsTo (quadwords_in stack.old) place 1 at }
    ensures moves_stack { MovesStack (quadwords_in stack.old) (quadwords_in stack.new) place at kind result }
    ensures by_index { (n : ℕ) → Falls n place result }
{
    if kind == LET {
        return ControlFlow::Break(Stop::AtLet);
    }
    put_quadword(stack, place.depth - 1, SECOND, at, place.left, UNUSED);
    ControlFlow::Continue(Place {
        returning: false,
        ..place
    })
}

// A value is complete as the second part of a node of this kind.
fn return_second(place: Place, kind: usize) -> Moved
    requires { (place.returning ≡ true) × (0 < place.depth) }
    ensures moves_stack { (rs : List Quadword) (at : ℕ) → ReturnsTo rs place 2 at → MovesStack rs rs place at kind result }
    ensures by_index { (n : ℕ) → Falls n place result }
{
    if kind != PAIR {
        return ControlFlow::Break(stop_two(kind));
    }
    ControlFlow::Continue(Place {
        depth: place.depth - 1,
        returning: true,
        ..place
    })
}

// A move with a value that is returned.
fn return_value(nodes: &[u8], stack: &mut [u8], place: Place) -> Moved
    requires { place.returning ≡ true }
    ensures moves { Moves (nodes_in nodes.now) (quadwords_in stack.old) (nodes_in nodes.now) (quadwords_in stack.new) place result }
    ensures falls { Falls (length (nodes_in nodes.now)) place result }
{
    let depth = place.depth;
    if depth == 0 {
        return ControlFlow::Break(Stop::AtEnd);
    }
    let tag = stack_tag(stack, depth - 1);
    let at = stack_node(stack, depth - 1);
    let kind = kind_at(nodes, at);
    match tag {
        ONLY => ControlFlow::Break(stop_one(kind)),
        FIRST => return_first(stack, place, at, kind),
        SECOND => return_second(place, kind),
        _ => ControlFlow::Break(Stop::AtExit),
    }
}

// One move of the walk.
fn move_once(nodes: &mut [u8], stack: &mut [u8], place: Place) -> Moved
    ensures moves { Moves (nodes_in nodes.old) (quadwords_in stack.old) (nodes_in nodes.new) (quadwords_in stack.new) place result }
    ensures falls { Falls (length (nodes_in nodes.old)) place result }
{
    if place.returning {
        return_value(nodes, stack, place)
    } else {
        evaluate(nodes, stack, place)
    }
}

// The walk to its stop.
pub fn walk(nodes: &mut [u8], stack: &mut [u8], place: Place) -> Stopped
    ensures { Walks (nodes_in nodes.old) (quadwords_in stack.old) (nodes_in nodes.new) (quadwords_in stack.new) place result }
{
    let mut now = place;
    loop {
        match move_once(nodes, stack, now) {
            ControlFlow::Continue(next) => now = next,
            ControlFlow::Break(stop) => return Stopped { place: now, stop },
        }
    }
}
