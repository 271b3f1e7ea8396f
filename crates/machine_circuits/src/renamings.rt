// How the wires of a copied circuit are numbered: an input becomes the label at its place, the others follow on from the next number.
ghost use Rattle.std.specs.Prelude.{ℕ, ◌+◌, ◌<◌, ◌≡◌, get_or};
ghost use Rattle.rules.specs.Gates.{wires_in};
ghost use Rattle.rules.specs.Circuits.{rename};
ghost use Rattle.words.specs.Quadwords.{word_in, quadwords_in, quadword_at};
ghost use Rattle.machine_circuits.specs.Layout.{gate_of, slot_of};

use rules::slots::NO_WIRE;
use words::quadwords::word_in;

// The labels, how many inputs the copied circuit has, and the next number.
#[derive(Clone, Copy)]
pub struct Renaming<'a> {
    pub labels: &'a [u8],
    pub inputs: usize,
    pub next: usize,
    // This holds of every slice of bytes. The check knows it of a parameter that is a slice, and not of a slice in a struct.
    ghost bytes: { (k : ℕ) → get_or labels.now k 0 < 256 },
}

impl<'a> Renaming<'a> {
    ghost use Rattle.machine_circuits.specs.Renamings.{labels_of, renamed_gate, Usable};

    // By these labels. They are a parameter here, so a caller has nothing to prove of the bytes.
    pub fn new(labels: &'a [u8], inputs: usize, next: usize) -> Renaming<'a>
        ensures same_labels { result.labels ≡ labels.entry }
        ensures same_inputs { result.inputs ≡ inputs }
        ensures same_next { result.next ≡ next }
    {
        Renaming {
            labels,
            inputs,
            next,
        }
    }

    // The number that a wire gets. The sum saturates only where the next number has more than 16 bits: so no caller has to test it.
    pub(crate) fn number_of(self, wire: usize) -> usize
        requires { wire < 65536 }
        ensures { Usable self.entry → result ≡ rename (labels_of self.entry) self.entry.next wire }
    {
        if wire < self.inputs {
            return words::get(self.labels, wire);
        }
        self.next.saturating_add(wire - self.inputs)
    }

    // The wire in a slot of the gate in a quadword, which takes so many, renamed; NO_WIRE, which stands in such slots in memory,
    // where it has no such slot. How many it takes is asked once for all slots.
    pub(crate) fn slot(self, gates: &[u8], i: usize, slot: usize, taken: usize) -> usize
        ensures { taken ≡ wires_in (word_in (quadword_at (quadwords_in gates.now) i) 0) → Usable self.entry
            → result ≡ slot_of (renamed_gate self.entry (gate_of (quadword_at (quadwords_in gates.now) i))) slot }
    {
        if taken <= slot {
            return NO_WIRE;
        }
        self.number_of(word_in(gates, i, 1 + slot))
    }
}
