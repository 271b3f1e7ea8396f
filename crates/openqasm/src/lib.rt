// The lines of an OpenQASM 2.0 text (02, ticket 4), each written behind what a lent text has.
// Believe: specs/Layout, the text of a listing to the byte.
// Main laws: proofs/Laws/Lines, a line by its parts.
// Called by the export.
#![tactic(auto)]

ghost use Rattle.std.specs.Prelude.{cond, [], ◌∷◌, ◌++◌, ◌≡◌};
ghost use Rattle.rules.specs.Gates.{CCX};
ghost use Rattle.rules.specs.Types.{Bit, Qubit};
ghost use Rattle.listing.specs.Reading.{input_type};
ghost use Rattle.text.specs.Text.{decimal, spaced};
ghost use Rattle.text.specs.Writer.{Writes};
ghost use Rattle.openqasm.specs.Layout.{header, bit_register, declaration, has_statement, gate_line, register_name};
ghost use Rattle.openqasm.specs.Lines.{one_line, two_line};

use listing::BIT_INPUT;
use rules::gates::{BX, BZ, CCX, CNOT, DISCARD, H, INIT, MEAS, S, T, X, Z};
use text::Writer;

// The first two lines.
pub fn write_header(out: &mut Writer)
    ensures { Writes out.old header out.new }
{
    out.put_bytes(b"OPENQASM 2.0;\n");
    out.put_bytes(b"include \"qelib1.inc\";\n");
}

// A word and a number. Inlined, as the lines below are, so that each word is a constant where it is written.
#[inline(always)]
fn put_named(out: &mut Writer, word: &[u8], n: usize)
    ensures { Writes out.old (word.now ++ decimal n) out.new }
{
    out.put_bytes(word);
    out.put_decimal(n);
}

// A line with one number: the bytes before it and behind it.
#[tactic(auto, using(crate::proofs::Laws::Lines::puts_behind))]
#[inline(always)]
fn write_one(out: &mut Writer, before: &[u8], n: usize, behind: &[u8])
    ensures { Writes out.old (before.now ++ (decimal n ++ behind.now)) out.new }
{
    put_named(out, before, n);
    out.put_bytes(behind);
}

// The declaration of a bit register.
fn write_bit_register(out: &mut Writer, k: usize)
    ensures { Writes out.old (bit_register k) out.new }
{
    write_one(out, b"creg c", k, b"[1];\n");
}

// The declarations of input k, by its kind in a listing.
pub fn write_declaration(out: &mut Writer, k: usize, kind: usize)
    ensures { Writes out.old (declaration k (input_type kind)) out.new }
{
    if kind == BIT_INPUT {
        write_bit_register(out, k);
        return;
    }
    write_one(out, b"qreg q", k, b"[1];\n");
    write_bit_register(out, k);
}

// A statement on one register.
#[inline(always)]
fn write_on_one(out: &mut Writer, before: &[u8], r: usize)
    ensures { Writes out.old (one_line before.now r) out.new }
{
    write_one(out, before, r, b"[0];\n");
}

// A statement on two: the bytes before the number of each.
#[tactic(auto, using(crate::proofs::Laws::Lines::puts_behind))]
#[inline(always)]
fn write_on_two(out: &mut Writer, before: &[u8], r: usize, between: &[u8], s: usize)
    ensures { Writes out.old (two_line before.now r between.now s) out.new }
{
    put_named(out, before, r);
    write_on_one(out, between, s);
}

// The line of a CCX.
#[tactic(auto, using(crate::proofs::Laws::Lines::puts_behind), unfolding(crate::specs::Layout::gate_line))]
#[inline(always)]
fn write_ccx(out: &mut Writer, r: usize, s: usize, t: usize)
    ensures { Writes out.old (gate_line CCX (r ∷ s ∷ t ∷ [])) out.new }
{
    put_named(out, b"ccx q", r);
    write_on_two(out, b"[0],q", s, b"[0],q", t);
}

// Has the gate a statement? Init and Discard have none.
#[tactic(auto, unfolding(crate::specs::Layout::has_statement))]
pub fn has_statement(gate: usize) -> bool
    ensures { result ≡ has_statement gate }
{
    !matches!(gate, INIT | DISCARD)
}

// The line of a gate whose wires are in these registers; nothing where it has no statement or there is no such gate.
#[tactic(auto, unfolding(crate::specs::Layout::gate_line))]
pub fn write_gate(out: &mut Writer, gate: usize, r: usize, s: usize, t: usize)
    ensures { Writes out.old (gate_line gate (r ∷ s ∷ t ∷ [])) out.new }
{
    match gate {
        H => write_on_one(out, b"h q", r),
        X => write_on_one(out, b"x q", r),
        Z => write_on_one(out, b"z q", r),
        S => write_on_one(out, b"s q", r),
        T => write_on_one(out, b"t q", r),
        CNOT => write_on_two(out, b"cx q", r, b"[0],q", s),
        MEAS => write_on_two(out, b"measure q", r, b"[0] -> c", r),
        BX => write_on_two(out, b"if(c", r, b"==1) x q", s),
        BZ => write_on_two(out, b"if(c", r, b"==1) z q", s),
        CCX => write_ccx(out, r, s, t),
        _ => {}
    }
}

// A space and the name of the register that holds an output.
pub fn write_output(out: &mut Writer, qubit: bool, r: usize)
    ensures { Writes out.old (spaced (register_name (cond qubit Qubit Bit) r ∷ [])) out.new }
{
    if qubit {
        put_named(out, b" q", r);
    } else {
        put_named(out, b" c", r);
    }
}
