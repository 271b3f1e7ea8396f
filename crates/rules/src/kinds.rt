// The kinds of 01's type section and term section and of 02's unit, by name. Numbers and no enum: a file has them as bytes and lent
// memory as words, either of which may hold a number that is no kind, and `parts_of_kind` answers for every number.

// Types.
pub const BIT: usize = 0;

pub const QUBIT: usize = 1;

pub const PAIR_TYPE: usize = 2;

pub const FUNCTION: usize = 3;

pub const REUSABLE: usize = 4;

pub const CIRCUIT: usize = 5;

pub const UNIT: usize = 6;

// Terms.
pub const VARIABLE: usize = 16;

pub const LABEL: usize = 17;

pub const ABSTRACTION: usize = 18;

pub const APPLICATION: usize = 19;

pub const PAIR: usize = 20;

pub const LET: usize = 21;

pub const LIFT: usize = 22;

pub const FORCE: usize = 23;

pub const BOX: usize = 24;

pub const APPLY: usize = 25;

pub const GATE: usize = 26;

pub const UNIT_VALUE: usize = 27;

// A circuit constant, which no file has: the machine's own kind.
pub const CONSTANT: usize = 32;
