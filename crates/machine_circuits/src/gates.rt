// The gates of circuits, a quadword each: its number, and the wires that it takes in three slots.
ghost use Rattle.std.specs.Prelude.{ℕ, ◌+◌, ◌%◌, ◌≤◌, ◌<◌, ◌≡◌, length, get_or, set, take};
ghost use Rattle.rules.specs.Gates.{wires_in};
ghost use Rattle.rules.specs.Terms.{◌on◌};
ghost use Rattle.rules.specs.Circuits.{outputs};
ghost use Rattle.words.specs.Words.{words, put_words};
ghost use Rattle.words.specs.Quadwords.{word_in, quadwords_in, quadword_at, four_words};
ghost use Rattle.machine_circuits.specs.Layout.{gate_of, slot_of, gate_words, gates_in};
ghost use Rattle.rules.specs.Slots.{no_wire};
ghost use Rattle.machine_circuits.specs.Copies.{low_words, CopyFits, GatesCopied, GatesMoved};
ghost use Rattle.machine_circuits.specs.Renamings.{labels_of, renamed_gate, Usable};

use crate::renamings::Renaming;
use rules::sizes::MOST_GATES;
use rules::slots::NO_WIRE;
use words::quadwords::{put_quadword, word_in};
use words::runs_past;

// Quadwords 0 to 2,047 have the gates of the open circuits, quadwords 2,048 to 4,095 those of the closed ones.
pub const CLOSED_FROM: usize = MOST_GATES;

// The wire in a slot of the gate in a quadword; NO_WIRE where it has no such slot: that number stands there in a listing
// (docs/FORMATS.md), into which the answer is written as it is.
pub fn gate_wire(gates: &[u8], i: usize, slot: usize) -> usize
    ensures { result ≡ slot_of (gate_of (quadword_at (quadwords_in gates.now) i)) slot }
{
    let number = word_in(gates, i, 0);
    if rules::wires_in(number) <= slot {
        return NO_WIRE;
    }
    word_in(gates, i, 1 + slot)
}

// Label k of the first n; NO_WIRE where there is none: that number stands in such slots in memory (docs/FORMATS.md).
fn label_at(labels: &[u8], n: usize, k: usize) -> usize
    ensures value { result ≡ get_or (take n (words labels.now)) k no_wire }
    ensures upper_bound { result < 65536 }
{
    if n <= k {
        return NO_WIRE;
    }
    if labels.len() / 2 <= k {
        return NO_WIRE;
    }
    words::get(labels, k)
}

// A gate that takes the first labels stands in a quadword. The second clause says it of the quadwords: no label is cut to 16 bits.
pub fn append_gate(gates: &mut [u8], i: usize, number: usize, labels: &[u8])
    ensures gates_after { gates.new ≡ put_words 4 gates.old i (four_words (gate_words (number on take (wires_in number) (words labels.now)))) }
    ensures gate_put { quadwords_in gates.new ≡ set (quadwords_in gates.old) i (gate_words ((number % 65536) on take (wires_in number) (words labels.now))) }
{
    let n = rules::wires_in(number);
    let first = label_at(labels, n, 0);
    let second = label_at(labels, n, 1);
    let third = label_at(labels, n, 2);
    put_quadword(gates, i, number, first, second, third);
}

// The gate in a quadword is copied to another quadword with its wires renamed.
fn copy_gate(gates: &mut [u8], from: usize, to: usize, renaming: Renaming)
    ensures { Usable renaming.entry → quadwords_in gates.new ≡ set (quadwords_in gates.old) to
        (low_words (gate_words (renamed_gate renaming.entry (gate_of (quadword_at (quadwords_in gates.old) from))))) }
{
    let number = word_in(gates, from, 0);
    let taken = rules::wires_in(number);
    let first = renaming.slot(gates, from, 0, taken);
    let second = renaming.slot(gates, from, 1, taken);
    let third = renaming.slot(gates, from, 2, taken);
    put_quadword(gates, to, number, first, second, third);
}

// The gates of a closed circuit are copied, the oldest first, with their wires renamed. Where they do not stand in the buffer, or
// the quadwords to be written do not end before them, nothing changes.
pub fn copy_gates(gates: &mut [u8], from: usize, count: usize, to: usize, renaming: Renaming)
    ensures { let r = renaming.entry in (m : ℕ)
        → CopyFits (quadwords_in gates.old) from count to (length (words r.labels.now)) r.inputs r.next m
        → GatesCopied (quadwords_in gates.old) (quadwords_in gates.new) from count to (labels_of r) r.next }
{
    if runs_past(gates.len() / 8, from, count) || runs_past(from, to, count) {
        return;
    }
    for i in 0..count {
        copy_gate(gates, from + i, to + i, renaming);
    }
}

// The gates of an open circuit are copied as they are to quadwords behind them. Where those quadwords do not stand
// in the buffer, or do not start behind the gates, nothing changes.
pub fn move_gates(gates: &mut [u8], from: usize, count: usize, to: usize)
    ensures { from + count ≤ to → to + count ≤ length (quadwords_in gates.old)
        → GatesMoved (quadwords_in gates.old) (quadwords_in gates.new) from count to }
{
    if runs_past(gates.len() / 8, to, count) || runs_past(to, from, count) {
        return;
    }
    gates.copy_within(8 * from..8 * (from + count), 8 * to);
}

// How many wires the gates of some quadwords make; 0 where the quadwords do not stand in the buffer. No Option: the contract speaks of
// quadwords that stand there, and read_redex would have no other answer.
pub fn wires_made(gates: &[u8], from: usize, count: usize) -> usize
    ensures { from + count ≤ length (quadwords_in gates.now) → result ≡ length (outputs (gates_in (quadwords_in gates.now) from count)) }
{
    if runs_past(gates.len() / 8, from, count) {
        return 0;
    }
    let mut made: usize = 0;
    for i in 0..count {
        made += rules::wires_out(word_in(gates, from + i, 0));
    }
    made
}
