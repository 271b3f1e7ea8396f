// The steps of 000's reductions that build no circuit, in lent memory: at a force, at an application and at a let.
// Nothing to believe: each meets the contract Steps of crate machine_state, for every typed state that the memory holds.
// Main laws: contraction_taken and contraction_refused (proofs/Laws/Reductions), one law for the steps with a substitution.
// Called by machine_steps. No `requires`: in memory that holds no typed state they end, and nothing is promised.
#![tactic(auto)]

ghost use Rattle.std.specs.Prelude.{ℕ, ◌<◌, ◌≡◌, List, length};
ghost use Rattle.rules.specs.Sizes.{most_nodes};
ghost use Rattle.words.specs.Words.{words};
ghost use Rattle.machine_terms.specs.Walks.{at_force, at_application, at_let};
ghost use Rattle.machine_nodes.specs.Nodes.{nodes_in};
ghost use Rattle.words.specs.Quadwords.{quadwords_in, Quadword};
ghost use Rattle.machine_state.specs.Memory.{memory};
ghost use Rattle.machine_state.specs.Outcomes.{Steps};
ghost use Rattle.machine_substitution.specs.Contractions.{application_value, let_values};
ghost use Rattle.step_reductions.specs.Taking.{taken_to};
ghost use Rattle.step_reductions.specs.Reductions.{most_between};

use machine_nodes::{copy_nodes, subtree_end};
use machine_state::StateNumbers;
use machine_substitution::{Region, Values, write_reduct};
use machine_walk::Place;
use machine_walk::stack::{stack_node, stack_start};
use rules::sizes::MOST_NODES;

// The numbers after the step: the redex, whose node stood at place `at`, is out of the walked nodes, its quadword is off the stack,
// and the reduct, which starts at place `to`, is evaluated next.
fn taken(numbers: StateNumbers, at: usize, to: usize) -> StateNumbers
    ensures { result ≡ taken_to numbers at to }
{
    StateNumbers {
        place: Place {
            left: at,
            right: to,
            depth: numbers.place.depth.saturating_sub(1),
            returning: false,
        },
        ..numbers
    }
}

// The value that an abstraction is applied to, from a place on; it is the last of the walked nodes.
fn applied_to(start: usize, left: usize) -> Values
    ensures { result ≡ application_value start left }
{
    let value = Region {
        start,
        length: left.saturating_sub(start),
    };
    Values {
        first: value,
        second: None,
    }
}

// How many nodes a reduct may have that stands between the walked nodes, which end at place `at`, and those still to be
// walked, which start at place `next`.
fn most_between(nodes: &[u8], at: usize, next: usize) -> usize
    requires { at < 65536 }
    ensures { result ≡ most_between (nodes_in nodes.now) at next }
{
    let rest = (nodes.len() / 4).saturating_sub(next);
    MOST_NODES.saturating_sub(at + rest)
}

// The step at a force of a lift: the lift's body stands behind the two nodes, and is evaluated. It always fits.
pub fn force(nodes: &mut [u8], stack: &[u8], numbers: StateNumbers) -> StateNumbers
    ensures { (gs cs fs : List Quadword) (ws : List ℕ) (results : ℕ → List ℕ) (allowance : ℕ)
        → Steps at_force allowance
        (memory (nodes_in nodes.old) (quadwords_in stack.now) gs cs fs ws results)
        (memory (nodes_in nodes.new) (quadwords_in stack.now) gs cs fs ws results) numbers (Some result) }
{
    let place = numbers.place;
    let at = stack_node(stack, place.depth.saturating_sub(1));
    let body = at + 2;
    let count = place.left.saturating_sub(body);
    let to = place.right.saturating_sub(count);
    copy_nodes(nodes, body, to, count);
    taken(numbers, at, to)
}

// The step at an application of an abstraction: the value takes the place of the variable in the body. The reduct is written
// at the start of the gap, as far as it is not too large, and then copied to where it is evaluated.
pub fn application(
    nodes: &mut [u8],
    stack: &[u8],
    waiting: &mut [u8],
    numbers: StateNumbers,
) -> Option<StateNumbers>
    ensures { most_nodes < length (words waiting.old)
        → (gs cs fs : List Quadword) (ws : List ℕ) (results : ℕ → List ℕ) (allowance : ℕ)
        → Steps at_application allowance
        (memory (nodes_in nodes.old) (quadwords_in stack.now) gs cs fs ws results)
        (memory (nodes_in nodes.new) (quadwords_in stack.now) gs cs fs ws results) numbers result }
{
    let place = numbers.place;
    let top = place.depth.saturating_sub(1);
    let at = stack_node(stack, top);
    let start = stack_start(stack, top);
    let source = Region {
        start: at + 2,
        length: start.saturating_sub(at + 2),
    };
    let values = applied_to(start, place.left);
    let most = most_between(nodes, at, place.right);
    let count = write_reduct(nodes, waiting, source, values, place.left, most)?;
    let to = place.right.saturating_sub(count);
    copy_nodes(nodes, place.left, to, count);
    Some(taken(numbers, at, to))
}

// The halves of a pair, which are the last of the walked nodes: the first stands behind the let's node, at place `at`, and
// the pair's node, the second from place `middle` on. Variable 0 is the second half.
fn halves(at: usize, middle: usize, left: usize) -> Values
    requires { at < 65536 }
    ensures { result ≡ let_values at middle left }
{
    let first_half = Region {
        start: at + 2,
        length: middle.saturating_sub(at + 2),
    };
    let second_half = Region {
        start: middle,
        length: left.saturating_sub(middle),
    };
    Values {
        first: second_half,
        second: Some(first_half),
    }
}

// The step at a let of a pair: the halves take the places of the two variables in the body, which is next to be walked. The
// reduct is written at the start of the gap, as far as it is not too large, and then copied to where the body ended.
pub fn let_in(
    nodes: &mut [u8],
    stack: &[u8],
    waiting: &mut [u8],
    numbers: StateNumbers,
) -> Option<StateNumbers>
    ensures { most_nodes < length (words waiting.old)
        → (gs cs fs : List Quadword) (ws : List ℕ) (results : ℕ → List ℕ) (allowance : ℕ)
        → Steps at_let allowance
        (memory (nodes_in nodes.old) (quadwords_in stack.now) gs cs fs ws results)
        (memory (nodes_in nodes.new) (quadwords_in stack.now) gs cs fs ws results) numbers result }
{
    let place = numbers.place;
    let at = stack_node(stack, place.depth.saturating_sub(1));
    let middle = subtree_end(nodes, at + 2);
    let values = halves(at, middle, place.left);
    let next = subtree_end(nodes, place.right);
    let body = Region {
        start: place.right,
        length: next.saturating_sub(place.right),
    };
    let most = most_between(nodes, at, next);
    let count = write_reduct(nodes, waiting, body, values, place.left, most)?;
    let to = next.saturating_sub(count);
    copy_nodes(nodes, place.left, to, count);
    Some(taken(numbers, at, to))
}
