// The names of the gates (01, "Gates"; 02, tickets 5 and 6).
ghost use Rattle.std.specs.Prelude.{◌≡◌};
ghost use Rattle.wirelist_lines.specs.Lines.{gate_name};

use rules::gates::{BX, BZ, CCX, CNOT, DISCARD, H, INIT, MEAS, S, T, X, Z};

// The gate's name; empty where there is no such gate.
pub(crate) fn name_of(n: usize) -> &'static [u8]
    ensures { result.now ≡ gate_name n }
{
    match n {
        H => b"H",
        X => b"X",
        Z => b"Z",
        S => b"S",
        T => b"T",
        CNOT => b"CNOT",
        MEAS => b"Meas",
        BX => b"BX",
        BZ => b"BZ",
        INIT => b"Init",
        DISCARD => b"Discard",
        CCX => b"CCX",
        _ => b"",
    }
}
