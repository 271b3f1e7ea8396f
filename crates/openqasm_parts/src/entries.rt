// The entries of a listing, one behind the other: kinds in one buffer, slots in another, and no buffer of entries, for a listing has
// the kinds of all entries before their slots, and both buffers are lent (import_answer).
ghost use Rattle.std.specs.Prelude.{◌+◌, ◌*◌, ◌≤◌, ◌<◌, length};
ghost use mathlib.Core.List.{[], ◌∷◌, flat_map};
ghost use Rattle.text.specs.Writer.{Writes};
ghost use Rattle.text.specs.Writing.{Puts};
ghost use Rattle.listing.specs.Listing.{bytes_of, entry_slots};
ghost use Rattle.openqasm_parts.specs.Stored.{Adds};

use listing::ENTRY_SLOTS;
use text::Writer;

// A number of 16 bits, low byte first.
pub(crate) fn put_word(out: &mut Writer, n: usize)
    requires { n < 65536 }
    ensures { Writes out.old (bytes_of n) out.new }
{
    out.put_bytes(&(n as u16).to_le_bytes());
}

// The same at a place where there is room for it, so that nothing is asked.
pub(crate) fn put_slot(slots: &mut [u8], at: usize, wire: usize)
    requires { (wire < 65536) × (at + 2 ≤ length slots.old) }
    ensures { Puts slots.old at (bytes_of wire) slots.new (at + 2) }
{
    slots[at..at + 2].copy_from_slice(&(wire as u16).to_le_bytes());
}

// The kind and the slots of an entry, behind those of the entries before it. There is room for them. Three wires and no array, here and
// where they come from: each is read by its own slot, and the contracts list them.
pub(crate) fn put_entry(
    kinds: &mut [u8],
    slots: &mut [u8],
    entry: usize,
    kind: usize,
    first: usize,
    second: usize,
    third: usize,
)
    requires bound { (entry < 65536) × (kind < 256) × (first < 65536) × (second < 65536) × (third < 65536) }
    requires in_bounds { (entry < length kinds.old) × (2 * entry_slots * (entry + 1) ≤ length slots.old) }
    ensures adds_kinds { Adds kinds.old entry (kind ∷ []) kinds.new }
    ensures adds_slots { Adds slots.old (2 * entry_slots * entry) (flat_map bytes_of (first ∷ second ∷ third ∷ []))
        slots.new }
{
    kinds[entry] = kind as u8;
    let at = 2 * ENTRY_SLOTS * entry;
    put_slot(slots, at, first);
    put_slot(slots, at + 2, second);
    put_slot(slots, at + 4, third);
}
