// The listing of a finished run, written from the machine's memory (01, "Listing").
// Nothing to believe: write_listing promises the bytes of crate listing's `listing`.
// Main laws: proofs/Laws/Reading (the parts in memory are those of the circuit), proofs/Laws/Writing (one written behind the other).
// Called by the end of a run.
#![tactic(auto)]

ghost use Rattle.std.specs.Prelude.{ℕ, ◌+◌, ◌*◌, ◌/◌, ◌≤◌, ◌<◌, ◌≡◌, length, drop};
ghost use mathlib.Core.List.{List, [], ◌∷◌, ◌++◌, map, flat_map};
ghost use Rattle.std.proofs.Math.Option.{some};
ghost use Rattle.rules.specs.Types.{Wire, wire_code};
ghost use Rattle.rules.specs.Terms.{Tuple, labels, Gate};
ghost use Rattle.rules.specs.Circuits.{circuit};
ghost use Rattle.machine_terms.specs.Trees.{Tree, preorder, tuple_of_tree};
ghost use Rattle.words.specs.Words.{words};
ghost use Rattle.machine_nodes.specs.Nodes.{nodes_in};
ghost use Rattle.words.specs.Regions.{over, Stands};
ghost use Rattle.words.specs.Quadwords.{quadwords_in};
ghost use Rattle.machine_circuits.specs.Layout.{gates_in};
ghost use Rattle.listing.specs.Listing.{bytes_of, entry_slots, listing};
ghost use Rattle.listing.specs.Lengths.{KindsFit};
ghost use Rattle.listing.specs.Pieces.{pieces};
ghost use Rattle.listing_writer.specs.Parts.{input_byte, input_piece, gate_piece, slots_piece, unused_piece};
ghost use Rattle.machine_circuits.specs.Layout.{labels_start};
ghost use Rattle.listing_writer.specs.Parts.{kinds_read, slots_read, outputs_read};

use listing::{BIT_INPUT, ENTRY_BYTES, ENTRY_SLOTS, GATES, INPUTS, OUTPUTS, QUBIT_INPUT, SIZES};
use machine_circuits::gates::gate_wire;
use machine_circuits::tuples::LABELS_FROM;
use machine_nodes::{argument_at, kind_at};
use rules::kinds::LABEL;
use rules::slots::NO_WIRE;
use words::quadwords::word_in;

// The largest number of 16 bits.
const MOST: usize = u16::MAX as usize;

// Two bytes become the number, low byte first. Here and below a place in the whole buffer is passed, and no part of the buffer: each
// contract then is one `over` of it, and all of them together are the listing.
fn put_bytes(out: &mut [u8], at: usize, value: usize)
    requires at_in_bounds { at + 2 ≤ length out.old }
    requires value_bound { value < 65536 }
    ensures { out.new ≡ over out.old at (bytes_of value) }
{
    out[at] = (value % 256) as u8;
    out[at + 1] = (value / 256) as u8;
}

// How many of the first nodes are labels.
fn count_labels(nodes: &[u8], size: usize) -> usize
    requires { size ≤ length nodes.now / 4 }
    ensures value { result ≡ length (outputs_read (nodes_in nodes.now) size) }
    ensures upper_bound { result ≤ size }
{
    let mut found: usize = 0;
    for i in 0..size {
        if kind_at(nodes, i) == LABEL {
            found += 1;
        }
    }
    found
}

// The three sizes are written.
fn write_sizes(out: &mut [u8], inputs: usize, count: usize, outputs: usize)
    requires in_bounds { 6 ≤ length out.old }
    requires inputs_bound { inputs < 65536 }
    requires count_bound { count < 65536 }
    requires outputs_bound { outputs < 65536 }
    ensures { out.new ≡ over out.old 0 (flat_map bytes_of (inputs ∷ count ∷ outputs ∷ [])) }
{
    put_bytes(out, INPUTS, inputs);
    put_bytes(out, GATES, count);
    put_bytes(out, OUTPUTS, outputs);
}

// The kind of an input by the code of its type.
fn input_kind(code: usize) -> u8
    ensures { result ≡ input_byte code }
{
    if code == 0 {
        BIT_INPUT as u8
    } else {
        QUBIT_INPUT as u8
    }
}

// A byte is written for each number below a count, from a place on.
fn write_bytes<F: Fn(usize) -> u8>(out: &mut [u8], at: usize, count: usize, byte: F)
    requires in_bounds { at + count ≤ length out.old }
    requires callable { (i : ℕ) → i < count → F.pre byte i }
    ensures { (f : ℕ → ℕ) → ((i b : ℕ) → i < count → F.post byte i b → b ≡ f i)
        → out.new ≡ over out.old at (pieces (λ i. f i ∷ []) count) }
{
    for i in 0..count {
        out[at + i] = byte(i);
    }
}

// A 16-bit number is written for each number below a count, from a place on.
fn write_words<F: Fn(usize) -> usize>(out: &mut [u8], at: usize, count: usize, word: F)
    requires in_bounds { at + count * 2 ≤ length out.old }
    requires callable { (i : ℕ) → i < count → F.pre word i }
    requires small { (i w : ℕ) → i < count → F.post word i w → w < 65536 }
    ensures { (f : ℕ → ℕ) → ((i w : ℕ) → i < count → F.post word i w → w ≡ f i)
        → out.new ≡ over out.old at (pieces (λ i. bytes_of (f i)) count) }
{
    for i in 0..count {
        put_bytes(out, at + 2 * i, word(i));
    }
}

// The slots of the gates are written, the oldest gate first.
fn write_gate_slots(gates: &[u8], count: usize, out: &mut [u8], at: usize)
    requires { at + count * (entry_slots * 2) ≤ length out.old }
    ensures { out.new ≡ over out.old at (pieces (slots_piece (quadwords_in gates.now)) count) }
{
    for i in 0..count {
        write_words(
            out,
            at + 2 * ENTRY_SLOTS * i,
            ENTRY_SLOTS,
            |slot| gate_wire(gates, i, slot),
        );
    }
}

// The labels among the first nodes are written, in order.
fn write_outputs(nodes: &[u8], size: usize, out: &mut [u8], at: usize)
    requires size_in_bounds { size ≤ length nodes.now / 4 }
    requires room { at + length (outputs_read (nodes_in nodes.now) size) * 2 ≤ length out.old }
    ensures { out.new ≡ over out.old at (flat_map bytes_of (outputs_read (nodes_in nodes.now) size)) }
{
    let mut found: usize = 0;
    for i in 0..size {
        if kind_at(nodes, i) == LABEL {
            put_bytes(out, at + 2 * found, argument_at(nodes, i));
            found += 1;
        }
    }
}

// The kinds of all entries are written behind the sizes.
fn write_kinds(types: &[u8], inputs: usize, gates: &[u8], count: usize, out: &mut [u8])
    requires inputs_bound { inputs < 65536 }
    requires count_in_bounds { 6 + inputs + count ≤ length out.old }
    ensures { out.new ≡ over out.old 6 (kinds_read (words types.now) inputs (quadwords_in gates.now) count) }
{
    write_bytes(
        out,
        SIZES,
        inputs,
        |i| input_kind(words::get(types, LABELS_FROM + i)),
    );
    write_bytes(
        out,
        SIZES + inputs,
        count,
        |i| (word_in(gates, i, 0) % 256) as u8,
    );
}

// The slots of all entries are written from a place on.
fn write_slots(inputs: usize, gates: &[u8], count: usize, out: &mut [u8], at: usize)
    requires { at + (inputs + count) * (entry_slots * 2) ≤ length out.old }
    ensures { out.new ≡ over out.old at (slots_read inputs (quadwords_in gates.now) count) }
{
    write_words(out, at, inputs * ENTRY_SLOTS, |_| NO_WIRE);
    write_gate_slots(gates, count, out, at + 2 * ENTRY_SLOTS * inputs);
}

// The listing of a finished run is written from the start of a buffer; answers its length. The types of the inputs stand in
// the types' buffer from word 512 on, the gates in the first quadwords, the tuple of the outputs in the first nodes. Where a size
// takes more than 16 bits, or the nodes or the listing run past their buffer, nothing changes and the answer is 0: so many bytes are
// written (clause out_unchanged).
// The buffers are lent whole, with how much of each is used beside it: out_after says `inputs ≡ length I` and the like of the numbers.
pub fn write_listing(
    types: &[u8],
    inputs: usize,
    gates: &[u8],
    count: usize,
    nodes: &[u8],
    size: usize,
    out: &mut [u8],
) -> usize
    ensures out_after { (I : List Wire) (gs : List Gate) (v : Tree) (k : Tuple)
        → Stands (words types.now) labels_start (map wire_code I) → inputs ≡ length I
        → gates_in (quadwords_in gates.now) 0 count ≡ gs → KindsFit gs
        → tuple_of_tree v ≡ some k → Stands (nodes_in nodes.now) 0 (preorder v) → size ≡ length (preorder v)
        → inputs < 65536 → count < 65536 → length (labels k) < 65536
        → length (listing (circuit I gs) k) ≤ length out.old
        → (out.new ≡ listing (circuit I gs) k ++ drop (length (listing (circuit I gs) k)) out.old)
        × (result ≡ length (listing (circuit I gs) k)) }
    ensures out_unchanged { result ≡ 0 → out.new ≡ out.old }
{
    if MOST < inputs || MOST < count || nodes.len() / 4 < size {
        return 0;
    }
    let outputs = count_labels(nodes, size);
    let entries = inputs + count;
    let length = SIZES + ENTRY_BYTES * entries + 2 * outputs;
    if MOST < outputs || out.len() < length {
        return 0;
    }
    write_sizes(out, inputs, count, outputs);
    write_kinds(types, inputs, gates, count, out);
    write_slots(inputs, gates, count, out, SIZES + entries);
    write_outputs(nodes, size, out, SIZES + ENTRY_BYTES * entries);
    length
}
