// Types as cells in lent memory, and the typing rules on them (01, "Typing"). A cell is a quadword: its kind, the cell of its
// first part, the cell of its second part, and the number of entries of the type, with a mark if it may be copied and dropped.
// Nothing to believe. Denotes (specs/Cells) says which type a cell is; each rule's function meets the rule of rules/specs/Inference.
// Main law: denotes_kept (proofs/Laws/Cells), a cell's type stays while cells are only added.
// Called by the check, and by the run for refusal 20. The contracts have no `requires`: they speak of all types that cells denote.
#![tactic(auto)]

ghost use Rattle.std.specs.Prelude.{ℕ, ◌+◌, ◌*◌, ◌-◌, ◌≤◌, ◌<◌, ◌≡◌, length, get_or, [], ◌∷◌};
ghost use Rattle.words.specs.Words.{words, put_words};
ghost use Rattle.rules.specs.Types.{Ty, copyable};
ghost use Rattle.rules.specs.Inference.{as_pair, as_reusable, abstraction_type, application_type, pair_type, lift_type, box_type};
ghost use Rattle.rules.specs.Inference.{apply_type};
ghost use Rattle.check_types.specs.Cells.{copyable_mark, marked, cell_kind, cell_first, cell_second, cell_size, cell_copyable};
ghost use Rattle.check_types.specs.Cells.{copyable_from, Denotes, MeetsOne, MeetsTwo};
ghost use Rattle.check_types.specs.Cells.{PartsGiven, PartsAre, cell_of_two, cell_of_reusable, after_rule};
ghost use Rattle.check_types.specs.Compare.{share_of, SaysSame, SaysWireType};
ghost use Rattle.check_types.specs.Rules.{SaysSameType, SaysIsWireType, MakesTwo, GivesResult, SaysBox};
ghost use Rattle.rules.specs.GateCodes.{type_entries, type_code};
ghost use Rattle.check_types.specs.Load.{entry_size, load_entry, load_codes, TypesLoaded};
ghost use Rattle.check_types.specs.GateCells.{gate_cell, gate_cells, load_all_gates};
ghost use Rattle.check_types.specs.Write.{SaysWrote, SaysWroteAt};

use rules::kinds::{BIT, CIRCUIT, FUNCTION, PAIR_TYPE, QUBIT, REUSABLE, UNIT};
use rules::parts::parts_of_kind;
use rules::sizes::MOST_ENTRIES;
use words::quadwords::put_quadword;

// What a typing rule answers where it applies: the cell of the type that it gives and the number of cells from then on.
#[derive(Clone, Copy)]
pub struct Ruling {
    pub cell: usize,
    pub cells: usize,
}

// Cell numbers are words.
const MOST_CELLS: usize = 65536;

// How much more the fourth word of a cell is than the number of entries if the type may be copied and dropped. It is noted when
// the cell is made, so that a use of a variable takes the same time however deep the pairs of its type are.
const COPYABLE_MARK: usize = 1024;

// What stands in a column of a cell's quadword.
fn column(work: &[u8], i: usize, k: usize) -> usize
    requires { k < 4 }
    ensures value { result ≡ get_or (words work.now) (4 * i + k) 0 }
    ensures upper_bound { result < 65536 }
{
    if work.len() / 8 < i {
        return 0;
    }
    words::get(work, 4 * i + k)
}

// The kind of a cell, the cells of its parts, its number of entries, and whether it may be copied; past the end of the buffer 0
// and no. Those that other crates call are one column each, since the contracts of the check name each of them. A kind is a number,
// as a byte of the file and a word of the cell have it.
pub fn cell_kind(work: &[u8], i: usize) -> usize
    ensures { result ≡ cell_kind (words work.now) i }
{
    column(work, i, 0)
}

pub fn cell_first(work: &[u8], i: usize) -> usize
    ensures { result ≡ cell_first (words work.now) i }
{
    column(work, i, 1)
}

pub fn cell_second(work: &[u8], i: usize) -> usize
    ensures { result ≡ cell_second (words work.now) i }
{
    column(work, i, 2)
}

fn cell_size(work: &[u8], i: usize) -> usize
    ensures value { result ≡ cell_size (words work.now) i }
    ensures upper_bound { result < copyable_mark }
{
    column(work, i, 3) % COPYABLE_MARK
}

fn cell_copyable(work: &[u8], i: usize) -> bool
    ensures { result ≡ cell_copyable (words work.now) i }
{
    COPYABLE_MARK <= column(work, i, 3)
}

// Quadword n becomes this cell; where the buffer has no such quadword, nothing changes. The words then: cell_put of
// proofs/Laws/NewCell.antt. What the cell then denotes: wire_written, unit_written, one_part_written and two_parts_written there.
pub fn new_cell(work: &mut [u8], n: usize, kind: usize, first: usize, second: usize, word: usize)
    ensures { work.new ≡ put_words 4 work.old n (kind ∷ first ∷ second ∷ word ∷ []) }
{
    put_quadword(work, n, kind, first, second, word);
}

// How many of the entries that are left a cell may have: as many as its quadword says, at most all.
fn share(work: &[u8], i: usize, left: usize) -> usize
    ensures { result ≡ share_of (words work.now) i left }
{
    cell_size(work, i).min(left)
}

// Are the types of two cells the same, of at most so many entries? A call with n entries gives its first part s of the
// n - 1 that are left and its second part n - 1 - s, so there are at most 2 * n + 1 calls, whatever the buffer holds.
// wire_type_within and write_at go down the parts of one cell the same way, but stop at other kinds and do something else at each
// cell: one function for all three would take a closure for each of its steps, with the contract that the three state now.
fn same_within(work: &[u8], i: usize, j: usize, most: usize) -> bool
    ensures { SaysSame (words work.now) most i j result }
{
    if i == j {
        return true;
    }
    let kind = cell_kind(work, i);
    if kind != cell_kind(work, j) {
        return false;
    }
    let parts = parts_of_kind(kind);
    if parts == 0 {
        return true;
    }
    if most == 0 {
        return true;
    }
    let first = cell_first(work, i);
    let size = share(work, first, most - 1);
    if !same_within(work, first, cell_first(work, j), size) {
        return false;
    }
    if parts == 1 {
        return true;
    }
    same_within(
        work,
        cell_second(work, i),
        cell_second(work, j),
        most - 1 - size,
    )
}

// Are the types of two cells the same?
fn same_type(work: &[u8], i: usize, j: usize) -> bool
    ensures { SaysSameType (words work.now) i j result }
{
    same_within(work, i, j, MOST_ENTRIES)
}

// Is the type of a cell, of at most so many entries, a wire type? There are at most as many calls as of same_within.
fn wire_type_within(work: &[u8], i: usize, most: usize) -> bool
    ensures { SaysWireType (words work.now) most i result }
{
    let kind = cell_kind(work, i);
    if parts_of_kind(kind) == 0 {
        return true;
    }
    if kind != PAIR_TYPE {
        return false;
    }
    if most == 0 {
        return false;
    }
    let first = cell_first(work, i);
    let size = share(work, first, most - 1);
    if !wire_type_within(work, first, size) {
        return false;
    }
    wire_type_within(work, cell_second(work, i), most - 1 - size)
}

// 01: "Wire types are Bit, Qubit and pairs of wire types". 02, ticket 5: "Unit is a wire type".
pub fn is_wire_type(work: &[u8], i: usize) -> bool
    ensures { SaysIsWireType (words work.now) i result }
{
    wire_type_within(work, i, MOST_ENTRIES)
}

// May the type of a cell be copied and dropped?
pub fn is_copyable(work: &[u8], i: usize) -> bool
    ensures { (n : ℕ) (A : Ty) → Denotes (words work.now) n i A → result ≡ copyable A }
{
    cell_copyable(work, i)
}

// May the type of this kind, whose parts are the types of two cells, be copied and dropped? 01: "The types that may be copied and
// dropped are the reusable kind and Circ"; 02, ticket 2: a pair "when both halves may"; ticket 5: unit, whose kind is above both.
fn copyable_from(work: &[u8], kind: usize, a: usize, b: usize) -> bool
    ensures { result ≡ copyable_from (words work.now) kind a b }
{
    if kind != PAIR_TYPE {
        return REUSABLE <= kind;
    }
    cell_copyable(work, a) && cell_copyable(work, b)
}

// The fourth word of the cell of such a type with so many entries.
fn fourth_word(work: &[u8], kind: usize, a: usize, b: usize, size: usize) -> usize
    requires { size < 65536 }
    ensures { result ≡ marked (copyable_from (words work.now) kind a b) size }
{
    if copyable_from(work, kind, a, b) {
        return size + COPYABLE_MARK;
    }
    size
}

// The cells of a pair's parts; of another type there are none.
pub fn pair_parts(work: &[u8], i: usize) -> Option<(usize, usize)>
    ensures { (n : ℕ) (A : Ty) → Denotes (words work.now) n i A → PartsGiven (words work.now) n (as_pair A) result }
{
    if cell_kind(work, i) != PAIR_TYPE {
        return None;
    }
    Some((cell_first(work, i), cell_second(work, i)))
}

// The type of this kind with two parts, as cell n, if it has at most 512 entries; this is tested before anything is written.
fn two_parts(work: &mut [u8], n: usize, kind: usize, a: usize, b: usize) -> Option<Ruling>
    ensures makes_two { MakesTwo kind (words work.old) (words work.new) n a b result }
    ensures work_after { work.new ≡ after_rule result work.old n (cell_of_two (words work.old) kind a b) }
{
    let size = 1 + cell_size(work, a) + cell_size(work, b);
    if MOST_ENTRIES < size {
        return None;
    }
    if MOST_CELLS <= n {
        return None;
    }
    let word = fourth_word(work, kind, a, b, size);
    new_cell(work, n, kind, a, b, word);
    Some(Ruling {
        cell: n,
        cells: n + 1,
    })
}

// The typing rules (Inference of the crate rules). The types of the parts are cells among the first n, and a new type
// becomes cell n. The buffer and n stay two arguments, since a struct would be no plainer: the check holds its bindings in the same
// buffer and answers the number of cells with the type of each part.
pub fn abstraction_type(work: &mut [u8], n: usize, a: usize, b: usize) -> Option<Ruling>
    ensures meets_two { MeetsTwo abstraction_type (words work.old) (words work.new) n a b result }
    ensures work_after { work.new ≡ after_rule result work.old n (cell_of_two (words work.old) 3 a b) }
{
    two_parts(work, n, FUNCTION, a, b)
}

pub fn pair_type(work: &mut [u8], n: usize, a: usize, b: usize) -> Option<Ruling>
    ensures meets_two { MeetsTwo pair_type (words work.old) (words work.new) n a b result }
    ensures work_after { work.new ≡ after_rule result work.old n (cell_of_two (words work.old) 2 a b) }
{
    two_parts(work, n, PAIR_TYPE, a, b)
}

pub fn lift_type(work: &mut [u8], n: usize, a: usize) -> Option<Ruling>
    ensures meets_one { MeetsOne lift_type (words work.old) (words work.new) n a result }
    ensures work_after { work.new ≡ after_rule result work.old n (cell_of_reusable (words work.old) a) }
{
    let size = 1 + cell_size(work, a);
    if MOST_ENTRIES < size {
        return None;
    }
    if MOST_CELLS <= n {
        return None;
    }
    new_cell(work, n, REUSABLE, a, 0, size + COPYABLE_MARK);
    Some(Ruling {
        cell: n,
        cells: n + 1,
    })
}

// The second part of f's type, if that is of this kind and its first part is the type of a.
fn result_type(work: &[u8], n: usize, kind: usize, f: usize, a: usize) -> Option<Ruling>
    ensures { GivesResult kind (words work.now) n f a result }
{
    if cell_kind(work, f) != kind {
        return None;
    }
    if !same_type(work, cell_first(work, f), a) {
        return None;
    }
    Some(Ruling {
        cell: cell_second(work, f),
        cells: n,
    })
}

pub fn application_type(work: &[u8], n: usize, f: usize, a: usize) -> Option<Ruling>
    ensures { MeetsTwo application_type (words work.now) (words work.now) n f a result }
{
    result_type(work, n, FUNCTION, f, a)
}

pub fn apply_type(work: &[u8], n: usize, f: usize, a: usize) -> Option<Ruling>
    ensures { MeetsTwo apply_type (words work.now) (words work.now) n f a result }
{
    result_type(work, n, CIRCUIT, f, a)
}

pub fn force_type(work: &[u8], n: usize, a: usize) -> Option<Ruling>
    ensures { MeetsOne as_reusable (words work.now) (words work.now) n a result }
{
    if cell_kind(work, a) != REUSABLE {
        return None;
    }
    Some(Ruling {
        cell: cell_first(work, a),
        cells: n,
    })
}

// The parts of the circuit type that box gives for the type t and a function of type a, if its rule applies.
fn box_parts(work: &[u8], t: usize, a: usize) -> Option<(usize, usize)>
    ensures says_box { SaysBox (words work.now) t a result }
    ensures parts_are { PartsAre t (cell_second (words work.now) (cell_first (words work.now) a)) result }
{
    if cell_kind(work, a) != REUSABLE {
        return None;
    }
    let f = cell_first(work, a);
    if cell_kind(work, f) != FUNCTION {
        return None;
    }
    if !same_type(work, t, cell_first(work, f)) {
        return None;
    }
    if !is_wire_type(work, t) {
        return None;
    }
    let u = cell_second(work, f);
    if !is_wire_type(work, u) {
        return None;
    }
    Some((t, u))
}

pub fn box_type(work: &mut [u8], n: usize, t: usize, a: usize) -> Option<Ruling>
    ensures meets_two { MeetsTwo box_type (words work.old) (words work.new) n t a result }
    ensures work_after { work.new ≡ after_rule result work.old n
        (cell_of_two (words work.old) 5 t (cell_second (words work.old) (cell_first (words work.old) a))) }
{
    let (first, second) = box_parts(work, t, a)?;
    two_parts(work, n, CIRCUIT, first, second)
}

// The entries of the type that is loaded as cell n.
fn entry_size(work: &[u8], n: usize, kind: usize) -> usize
    ensures value { result ≡ entry_size (words work.now) n kind }
    ensures upper_bound { result < 65536 }
{
    let parts = parts_of_kind(kind);
    if parts == 0 {
        return 1;
    }
    let first = n.saturating_sub(1);
    let size = cell_size(work, first);
    if parts == 1 {
        return 1 + size;
    }
    1 + size + cell_size(work, first.saturating_sub(size))
}

// Loads an entry of a preorder as cell n. The cell before it is that of the next entry, its first part, if it has parts.
fn load_entry(work: &mut [u8], n: usize, kind: usize)
    ensures work_after { words work.new ≡ load_entry (words work.old) n kind }
    ensures work_len_unchanged { length work.new ≡ length work.old }
{
    let size = entry_size(work, n, kind);
    let first = n.saturating_sub(1);
    let second = first.saturating_sub(cell_size(work, first));
    let word = fourth_word(work, kind, first, second, size);
    new_cell(work, n, kind, first, second, word);
}

// Loads so many entries of types in preorder as the cells from n on, from the last one to the first: position p of P becomes
// cell n + (P - 1 - p). The closure gives the code of a position. The answer is how many cells there are then.
fn load_codes<F: Fn(usize) -> u8>(work: &mut [u8], n: usize, count: usize, code: F) -> usize
    requires fits { n + count < 131073 }
    requires callable { (p : ℕ) → p < count → F.pre code p }
    ensures value { result ≡ n + count }
    ensures work_after { (f : ℕ → ℕ) → ((p r : ℕ) → p < count → F.post code p r → r ≡ f p)
        → words work.new ≡ load_codes (words work.old) n f 0 count }
    ensures work_len_unchanged { length work.new ≡ length work.old }
{
    for k in 0..count {
        load_entry(work, n + k, usize::from(code(count - 1 - k)));
    }
    n + count
}

// Loads a string of types in preorder as the cells from n on (types_are_cells in proofs/Laws/Load.antt).
pub fn load_types(work: &mut [u8], n: usize, codes: &[u8]) -> usize
    ensures types_loaded { n + length codes.now ≤ 65536 → TypesLoaded (words work.old) (words work.new) n codes.now result }
    ensures work_len_unchanged { length work.new ≡ length work.old }
{
    let count = codes.len();
    if MOST_CELLS < n || MOST_CELLS < count {
        return n;
    }
    load_codes(work, n, count, |p| codes[p])
}

// Loads the type of a gate as the cells from n on.
fn load_gate(work: &mut [u8], n: usize, g: usize) -> usize
    requires { n < 65536 }
    ensures value { result ≡ n + type_entries g }
    ensures work_after { words work.new ≡ load_codes (words work.old) n (type_code g) 0 (type_entries g) }
    ensures work_len_unchanged { length work.new ≡ length work.old }
{
    load_codes(work, n, rules::type_entries(g), |p| rules::type_code(g, p))
}

// The cell of the unit type.
pub const CELL_OF_UNIT: usize = 2;

// The first cell of the gates' types.
const GATES_FROM: usize = 3;

// Loads Bit as cell 0, Qubit as cell 1, unit, and behind them the types of all gates. The answer is how many cells there are then
// (gates_loaded in proofs/Laws/GateCells.antt).
pub fn load_gates(work: &mut [u8]) -> usize
    ensures value { result ≡ gate_cells }
    ensures work_after { words work.new ≡ load_all_gates (words work.old) }
    ensures work_len_unchanged { length work.new ≡ length work.old }
{
    load_entry(work, 0, BIT);
    load_entry(work, 1, QUBIT);
    load_entry(work, CELL_OF_UNIT, UNIT);
    let mut n = GATES_FROM;
    for g in 0..rules::GATES {
        n = load_gate(work, n, g);
    }
    n
}

// The cell of a gate's type; 0 where there is no such gate. No Option: the definition `gate_cell` is 0 there, and the check asks for
// gates alone.
pub fn gate_cell(g: usize) -> usize
    ensures { result ≡ gate_cell g }
{
    if !rules::is_gate(g) {
        return 0;
    }
    let mut n = GATES_FROM;
    for k in 0..g {
        n += rules::type_entries(k);
    }
    n + rules::type_entries(g) - 1
}

// Writes the entries of cell i's type, of at most so many entries, from a place on. The answer is the next place. There are
// at most as many calls as of same_within.
fn write_at(work: &[u8], i: usize, out: &mut [u8], at: usize, most: usize) -> usize
    ensures says_wrote_at { SaysWroteAt (words work.now) most i at out.old out.new result }
    ensures out_len_unchanged { length out.new ≡ length out.old }
{
    if out.len() <= at {
        return at;
    }
    let kind = cell_kind(work, i);
    out[at] = (kind % 256) as u8;
    let parts = parts_of_kind(kind);
    if parts == 0 {
        return at + 1;
    }
    if most == 0 {
        return at + 1;
    }
    let first = cell_first(work, i);
    let size = share(work, first, most - 1);
    let next = write_at(work, first, out, at + 1, size);
    if parts == 1 {
        return next;
    }
    write_at(work, cell_second(work, i), out, next, most - 1 - size)
}

// Writes the entries of cell i's type in preorder to the front of out, and answers how many they are.
pub fn write_type(work: &[u8], i: usize, out: &mut [u8]) -> usize
    ensures says_wrote { SaysWrote (words work.now) i out.old out.new result }
    ensures out_len_unchanged { length out.new ≡ length out.old }
{
    write_at(work, i, out, 0, MOST_ENTRIES)
}
