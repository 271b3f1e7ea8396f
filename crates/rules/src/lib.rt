// The rules of Proto-Quipper-M on trees (000, sections 2 and 3) with the theorems about them, and in code the gates (01, "Gates")
// as constant tables of arity and type codes, one place a gate, with the sizes and the kinds of 01 by name and a table of how many
// parts a kind has (02, ticket 7).
// Believe: specs/ in 000's order: Types, Gates, Terms, Parts, Circuits, Typing, Contexts, Steps; then Sizes, Demand3, Next, Runs.
// Main theorem: demand3_from (proofs/Theorems/Safety), demand 3 from every configuration that has a type.
// Called by the reader, the check and the machine; every contract above speaks of these rules.
#![tactic(auto)]

pub mod gates;
pub mod kinds;
pub mod parts;
pub mod sizes;
pub mod slots;

ghost use Rattle.std.specs.Prelude.{◌≡◌, get_or};
ghost use Rattle.rules.specs.Gates.{wires_in, wires_out};
ghost use Rattle.rules.specs.GateCodes.{taken_code, made_code, type_entries, type_code};
ghost use Rattle.rules.specs.Gates.{is_gate};

// How many gates there are, how many types they have, and the most entries of such a type.
pub const GATES: usize = 12;

const GATE_TYPES: usize = 7;

const MOST_TYPE: usize = 11;

// The code where there is no entry or no gate.
const NONE: u8 = 255;

// How many wires each gate takes, how many it makes, and how many entries its type has. Each table is a static, which no lookup
// builds anew, and the numbers that are asked for often stand in small tables of their own.
static WIRES_IN: [u8; GATES] = [1, 1, 1, 1, 1, 2, 1, 2, 2, 0, 1, 3];

static WIRES_OUT: [u8; GATES] = [1, 1, 1, 1, 1, 2, 1, 2, 2, 1, 0, 3];

static TYPE_ENTRIES: [u8; GATES] = [3, 3, 3, 3, 3, 7, 3, 7, 7, 3, 3, 11];

// The types of the wires that each gate takes and makes, in one number: digits of base 4, that of the first wire the lowest, 1 for
// Bit and 2 for Qubit. One lookup gives all of them.
static TAKEN_CODES: [u8; GATES] = [2, 2, 2, 2, 2, 10, 2, 9, 9, 0, 1, 42];

static MADE_CODES: [u8; GATES] = [2, 2, 2, 2, 2, 10, 1, 9, 9, 2, 0, 42];

// The types that gates have, in preorder, by 01's type section: 0 Bit, 1 Qubit, 2 pair, 5 circuit; 6 unit. A row for each gate
// would make the table nearly twice as large.
static TYPE_CODES: [[u8; MOST_TYPE]; GATE_TYPES] = [
    // H, X, Z, S, T
    [5, 1, 1, NONE, NONE, NONE, NONE, NONE, NONE, NONE, NONE],
    // CNOT
    [5, 2, 1, 1, 2, 1, 1, NONE, NONE, NONE, NONE],
    // Meas
    [5, 1, 0, NONE, NONE, NONE, NONE, NONE, NONE, NONE, NONE],
    // BX, BZ
    [5, 2, 0, 1, 2, 0, 1, NONE, NONE, NONE, NONE],
    // Init
    [5, 6, 1, NONE, NONE, NONE, NONE, NONE, NONE, NONE, NONE],
    // Discard
    [5, 0, 6, NONE, NONE, NONE, NONE, NONE, NONE, NONE, NONE],
    // CCX
    [5, 2, 1, 2, 1, 1, 2, 1, 2, 1, 1],
];

// Which of them each gate has.
static TYPE_OF_GATE: [u8; GATES] = [0, 0, 0, 0, 0, 1, 2, 3, 3, 4, 5, 6];

// The number at a place of a table; 0 past its end.
fn number_at(table: &[u8], place: usize) -> usize
    ensures { result ≡ get_or table.now place 0 }
{
    usize::from(table.get(place).copied().unwrap_or(0))
}

// What is asked of a gate is answered by a number and no Option: the definitions of specs/Gates and specs/GateCodes have 0, or NONE,
// for a number that is no gate.

// How many wires the gate takes; 0 where there is no such gate.
pub fn wires_in(n: usize) -> usize
    ensures { result ≡ wires_in n }
{
    number_at(&WIRES_IN, n)
}

// How many wires the gate makes; 0 where there is no such gate.
pub fn wires_out(n: usize) -> usize
    ensures { result ≡ wires_out n }
{
    number_at(&WIRES_OUT, n)
}

// The types of the wires that the gate takes, in one number; 0 where there is no such gate.
pub fn taken_code(n: usize) -> usize
    ensures { result ≡ taken_code n }
{
    number_at(&TAKEN_CODES, n)
}

// The types of the wires that the gate makes, in one number; 0 where there is no such gate.
pub fn made_code(n: usize) -> usize
    ensures { result ≡ made_code n }
{
    number_at(&MADE_CODES, n)
}

// How many entries the gate's type has, Circ from its input to its output; 0 where there is no such gate.
pub fn type_entries(n: usize) -> usize
    ensures { result ≡ type_entries n }
{
    number_at(&TYPE_ENTRIES, n)
}

// Entry i of the gate's type in preorder; NONE where there is no such entry.
pub fn type_code(n: usize, i: usize) -> u8
    ensures { result ≡ type_code n i }
{
    if n < GATES && i < MOST_TYPE {
        TYPE_CODES[usize::from(TYPE_OF_GATE[n])][i]
    } else {
        NONE
    }
}

// Is this number a gate?
pub fn is_gate(n: usize) -> bool
    ensures { result ≡ is_gate n }
{
    n < GATES
}
