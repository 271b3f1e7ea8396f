// The table of a circuit's wires in lent memory (02, ticket 3): one byte a wire, 0 where it is not there, else one more than the code
// of its type: what is lent is bytes, so no Option stands in it. It knows inputs and gates, and no bytes of a listing.
// Believe: specs/Wires and WireRules.
// Main theorem: wires_mean (proofs/Theorems/Wires), the place where a wire rule is broken, and that none is broken exactly if the
// circuit is sound and each wire goes exactly once.
// Called by the check of listings.
#![tactic(auto)]

ghost use Rattle.std.specs.Prelude.{ℕ, ◌+◌, ◌≤◌, ◌<◌, ◌≡◌, cond, List, eqb, ltb, length, get_or, set};
ghost use Rattle.words.specs.Numbers.{words_at};
ghost use Rattle.rules.specs.Types.{Wire};
ghost use Rattle.rules.specs.Gates.{gate_type, gate_outputs, wires_in, wires_out, input_wires};
ghost use Rattle.wire_table.specs.Wires.{first_where};
ghost use Rattle.words.specs.Found.{option_of};
ghost use Rattle.wire_table.specs.Table.{Holds, TakesAll, MakesAll};

use words::{byte_at, word_at};

// Is the wire there, with this byte? Then it is gone.
fn take_wire(table: &mut [u8], w: usize, byte: u8) -> bool
    ensures value { result ≡ eqb (get_or table.old w 0) byte }
    ensures table_after { table.new ≡ cond result (set table.old w 0) table.old }
{
    if table.len() <= w {
        return byte == 0;
    }
    if table[w] == byte {
        table[w] = 0;
        return true;
    }
    false
}

// The wires that a gate takes, 16-bit numbers from a place on: are they there, each with its type? Then they are gone. The bound of the
// place is that of slots_from of crate listing, a number among others for this crate, which knows no listing.
pub fn take_wires(source: &[u8], from: usize, gate: usize, table: &mut [u8]) -> bool
    requires { from < 134217728 }
    ensures { (types : List Wire) (gone : List ℕ)
        → Holds table.old types gone
        → TakesAll types gone (words_at source.now from (wires_in gate)) (input_wires (gate_type gate)) table.new result }
{
    // No `for`: the digits of the number end the loop, and a count beside them would say the same a second time.
    let mut needed = rules::taken_code(gate);
    let mut at = from;
    while 0 < needed {
        if !take_wire(table, word_at(source, at), (needed % 4) as u8) {
            return false;
        }
        at += 2;
        needed = needed / 4;
    }
    true
}

// Is the wire there, of whatever type? Then it is gone.
pub fn take_any(table: &mut [u8], w: usize) -> bool
    ensures value { result ≡ ltb 0 (get_or table.old w 0) }
    ensures table_after { table.new ≡ cond result (set table.old w 0) table.old }
{
    let byte = byte_at(table, w);
    if byte == 0 {
        return false;
    }
    take_wire(table, w, byte)
}

// One more wire, with this byte: it gets the number that is given. Nothing changes where the table has no room.
pub fn make_wire(table: &mut [u8], at: usize, byte: u8)
    ensures { table.new ≡ set table.old at byte }
{
    if at < table.len() {
        table[at] = byte;
    }
}

// The wires that a gate makes, of which the first gets this number. The answer is the number of the next wire.
pub fn make_wires(gate: usize, table: &mut [u8], made: usize) -> usize
    requires { made < 134217728 }
    ensures { (types : List Wire) (gone : List ℕ)
        → Holds table.old types gone
        → made ≡ length types
        → made + wires_out gate ≤ length table.old
        → MakesAll types gone (gate_outputs gate) table.new result }
{
    // No `for`: the digits of the number end the loop, as in take_wires.
    let mut codes = rules::made_code(gate);
    let mut next = made;
    while 0 < codes {
        make_wire(table, next, (codes % 4) as u8);
        next += 1;
        codes = codes / 4;
    }
    next
}

// The lowest of so many wires that is there.
pub fn lowest_there(table: &[u8], count: usize) -> Option<usize>
    ensures { result ≡ option_of (first_where (λ w. ltb 0 (get_or table.now w 0)) 0 count) }
{
    (0..count).find(|&w| 0 < byte_at(table, w))
}
