// The gates by name (01, "Gates"; 02, tickets 5 and 6). Numbers and no enum: a file and a listing have them as bytes and words, and
// what is asked of a gate, as `wires_in` and `is_gate`, is answered for every number.

pub const H: usize = 0;

pub const X: usize = 1;

pub const Z: usize = 2;

pub const S: usize = 3;

pub const T: usize = 4;

pub const CNOT: usize = 5;

pub const MEAS: usize = 6;

pub const BX: usize = 7;

pub const BZ: usize = 8;

pub const INIT: usize = 9;

pub const DISCARD: usize = 10;

pub const CCX: usize = 11;
