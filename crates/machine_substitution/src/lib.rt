// From the body of an abstraction or a let to the reduct, in lent memory: it is written as far as it is not too large.
// Two buffers are lent: the nodes, and words for the parts of the body still waited for, each with the number of binders around
// it; a body of n nodes needs n + 1 words. Nothing to believe. Wrote (specs/Reducts) is the contract of the writing.
// Main laws: application_reduct and let_reduct (proofs/Laws/Contractions), what is written is the reduct of the rules.
// Called by the steps at an application and at a let.
#![tactic(auto)]

ghost use Rattle.std.specs.Prelude.{◌+◌, ◌^◌, ◌≤◌, ◌<◌, ◌≡◌, length};
ghost use Rattle.words.specs.Words.{words};
ghost use Rattle.machine_terms.specs.Trees.{node};
ghost use Rattle.machine_nodes.specs.Nodes.{nodes_in};
ghost use Rattle.machine_substitution.specs.Substituted.{waiting_after};
ghost use Rattle.machine_substitution.specs.Waiting.{stack_of, binders_of};
ghost use Rattle.machine_substitution.specs.Pieces.{piece_region};
ghost use Rattle.machine_substitution.specs.Reducts.{Ready, NextPiece, Wrote};

use machine_nodes::{argument_at, copy_nodes, kind_at, parts_of};
use rules::kinds::{ABSTRACTION, LET, VARIABLE};
use words::{get, put};

// Some nodes of the buffer: from a place on, so many.
#[derive(Clone, Copy)]
pub struct Region {
    // The place of its first node.
    pub start: usize,
    // How many nodes it has.
    pub length: usize,
}

// Where the values stand that take the place of the outermost variables.
#[derive(Clone, Copy)]
pub struct Values {
    // The value of variable 0.
    pub first: Region,
    // The value of variable 1, if there are two.
    pub second: Option<Region>,
}

// What a node becomes, and how many parts are waited for behind it.
#[derive(Drop)]
struct Next {
    // The nodes that it becomes.
    piece: Region,
    // How many parts are waited for behind it.
    depth: usize,
}

// How many binders a node of a kind puts around its last part.
#[tactic(auto, using(std::proofs::lemmas::Bool::Decides::nat_tests), unfolding(crate::specs::Waiting::binders_of))]
fn binders_of(kind: usize) -> usize
    ensures { result ≡ binders_of kind }
{
    match kind {
        ABSTRACTION => 1,
        LET => 2,
        _ => 0,
    }
}

// The parts of a node of a kind, which stands under so many binders, are waited for: the first one on top.
fn wait_for_parts(waiting: &mut [u8], depth: usize, kind: usize, binders: usize) -> usize
    requires { (depth < 2 ^ 62) × (binders < 65536) }
    ensures upper_bound { result ≤ depth + 2 }
    ensures result_after { depth + 1 < length (words waiting.old) → binders + 2 < 65536
        → stack_of (words waiting.new) result ≡ waiting_after kind binders (stack_of (words waiting.old) depth) }
{
    let last = binders + binders_of(kind);
    match parts_of(kind) {
        1 => {
            put(waiting, depth, last);
            depth + 1
        }
        2 => {
            put(waiting, depth, last);
            put(waiting, depth + 1, binders);
            depth + 2
        }
        _ => depth,
    }
}

// Where the nodes stand that the node at a place becomes: itself, or a value.
#[tactic(auto, using(std::proofs::lemmas::Bool::Decides::nat_tests), unfolding(crate::specs::Pieces::piece_region, crate::specs::Pieces::variable_region))]
fn piece_for(values: Values, kind: usize, argument: usize, binders: usize, place: usize) -> Region
    ensures { result ≡ piece_region values binders (node kind argument) place }
{
    let own = Region {
        start: place,
        length: 1,
    };
    if kind != VARIABLE || argument < binders {
        return own;
    }
    match argument - binders {
        0 => values.first,
        1 => values.second.unwrap_or(own),
        _ => own,
    }
}

// What the node at a place becomes, which is the first of the parts that are waited for.
fn next_piece(nodes: &[u8], waiting: &mut [u8], place: usize, depth: usize, values: Values) -> Next
    requires { (0 < depth) × (depth < 2 ^ 62) }
    ensures { NextPiece (nodes_in nodes.now) (words waiting.old) (words waiting.new)
        values place depth result.piece result.depth }
{
    let binders = get(waiting, depth - 1);
    let kind = kind_at(nodes, place);
    let argument = argument_at(nodes, place);
    let piece = piece_for(values, kind, argument, binders, place);
    let depth = wait_for_parts(waiting, depth - 1, kind, binders);
    Next { piece, depth }
}

// The reduct of a body is written from a place on, if it has at most so many nodes; the answer is its size. The body and the
// values stand outside of the places that the reduct may take, and nothing else in the buffer changes.
pub fn write_reduct(
    nodes: &mut [u8],
    waiting: &mut [u8],
    source: Region,
    values: Values,
    to: usize,
    most: usize,
) -> Option<usize>
    ensures { Ready (nodes_in nodes.old) (length (words waiting.old)) to most source values
        → Wrote (nodes_in nodes.old) (nodes_in nodes.new) source values to most result }
{
    let n = nodes.len() / 4;
    if n.checked_sub(source.start)? < source.length || n.checked_sub(to)? < most {
        return None;
    }
    put(waiting, 0, 0);
    let mut depth = 1;
    let mut size = 0;
    for i in 0..source.length {
        if depth == 0 {
            break;
        }
        let next = next_piece(nodes, waiting, source.start + i, depth, values);
        let piece = next.piece;
        if most - size < piece.length {
            return None;
        }
        copy_nodes(nodes, piece.start, to + size, piece.length);
        size += piece.length;
        depth = next.depth;
    }
    Some(size)
}
