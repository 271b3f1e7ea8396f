// The registers: for each the wire that it holds.
ghost use Rattle.std.specs.Prelude.{◌+◌, ◌≤◌, ◌<◌, ◌≡◌, cond, ltb, [], ◌∷◌, length, get_or, set, take};
ghost use Rattle.rules.specs.Circuits.{numbers};
ghost use Rattle.rules.specs.Sizes.{most_labels};
ghost use Rattle.rules.specs.Slots.{no_wire};
ghost use Rattle.listing.specs.Listing.{entry_slots};
ghost use Rattle.openqasm_parts.specs.Reading.{holding};

use rules::sizes::MOST_LABELS;
use rules::slots::NO_WIRE;

// Register k holds wire k.
pub(crate) fn number_registers(held: &mut [u16])
    requires { length held.old ≡ most_labels }
    ensures { held.new ≡ numbers 0 most_labels }
{
    for k in 0..MOST_LABELS {
        held[k] = k as u16;
    }
}

// The wire that a register holds.
pub(crate) fn wire_in(held: &[u16], register: usize) -> usize
    ensures value { result ≡ get_or held.now register 0 }
    ensures upper_bound { result < 65536 }
{
    held.get(register).copied().unwrap_or(0) as usize
}

// What stands in a slot of a gate that takes so many wires: the wire that its register holds, or NO_WIRE.
pub(crate) fn slot_wire(held: &[u16], count: usize, slot: usize, register: usize) -> usize
    ensures value { result ≡ cond (ltb slot count) (get_or held.now register 0) no_wire }
    ensures upper_bound { result < 65536 }
{
    if slot < count {
        return wire_in(held, register);
    }
    NO_WIRE
}

// Register k holds this wire; nothing changes where there is no such register.
fn put(held: &mut [u16], k: usize, wire: usize)
    requires { wire < 65536 }
    ensures { held.new ≡ set held.old k wire }
{
    if k < held.len() {
        held[k] = wire as u16;
    }
}

// The registers of a gate hold the wires that it makes, so many, from this number on; answers the number of the next wire.
pub(crate) fn hold_wires(
    held: &mut [u16],
    count: usize,
    first: usize,
    second: usize,
    third: usize,
    made: usize,
) -> usize
    requires { (1 ≤ count) × (count ≤ entry_slots) × (made + entry_slots ≤ 65536) }
    ensures value { result ≡ made + count }
    ensures held_after { held.new
        ≡ holding held.old (take count (first ∷ second ∷ third ∷ [])) made }
{
    put(held, first, made);
    if count < 2 {
        return made + 1;
    }
    put(held, second, made + 1);
    if count < 3 {
        return made + 2;
    }
    put(held, third, made + 2);
    made + 3
}
