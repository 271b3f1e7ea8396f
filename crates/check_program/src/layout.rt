// The layout of the working memory: quadwords. First the cells of types: Bit, Qubit, unit and the gates' types,
// then the type section of the file from its last entry to its first, then at most one new cell a term node. Behind them the
// bindings of what is in scope: 64 of labels, then 4,096 of binders, the outermost first. A binding is a quadword too: the cell of its
// type, the lifts where it is bound, its uses so far, and a word that is not used.
use rules::sizes::{MOST_ENTRIES, MOST_LABELS, MOST_TERMS};

// How many cells the gates' types take, with Bit, Qubit and unit: the first cell of the file's types.
pub const GATE_CELLS: usize = 59;

// The first quadword of the scope: fewer cells than this are ever made (59 + 512 + 2,048).
pub const SCOPE: usize = 2700;

// The labels' bindings, as many as a file can have labels; the first binder's binding is behind them.
pub const LABEL_BINDINGS: usize = MOST_LABELS;

// The least lengths of the output buffer and of the working memory, in bytes: 512 entries of a type; 6,860 quadwords.
pub const LEAST_OUT: usize = MOST_ENTRIES;

pub const LEAST_WORK: usize = 8 * (SCOPE + LABEL_BINDINGS + BINDERS);

// At most so many binders are in scope: a node binds at most two.
const BINDERS: usize = 2 * MOST_TERMS;
