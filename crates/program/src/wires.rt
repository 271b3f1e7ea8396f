// The tests on types and wire types (01, refusals 6 and 7).
ghost use Rattle.std.specs.Prelude.{◌≡◌, ◌<◌};
ghost use Rattle.program.specs.Format.{first_term};
ghost use Rattle.program.specs.Traversal.{WireType};
ghost use Rattle.program.specs.Reach.{TraversedOf};
ghost use Rattle.program.specs.Reading.{type_wrong, circ_wrong, box_wrong, wires_wrong};

use crate::file::File;
use crate::format::{argument_at, kind_at};
use crate::traversal::{Halt, runs_out, traverse, wire_parts};
use rules::kinds::{BOX, CIRCUIT};

impl File<'_> {
    // Whether the type at entry e runs out.
    pub(crate) fn type_wrong(&self, e: usize) -> bool
        ensures { result ≡ type_wrong self.now.bytes.now e }
    {
        runs_out(traverse(&|x, b| self.whole_parts(x, b), self.first_term(), e, 0))
    }

    // Where the wire type at entry e ends, where one stands there.
    pub(crate) fn wire_type_end(&self, e: usize) -> Result<usize, Halt>
        ensures { TraversedOf WireType self.now.bytes.now (first_term self.now.bytes.now) e 0 result }
    {
        traverse(
            &|x, _| wire_parts(kind_at(self.bytes, x)),
            self.first_term(),
            e,
            0,
        )
    }

    // Whether a part of the circuit type at entry e is no wire type.
    #[tactic(auto, using(crate::proofs::Laws::Reading::circ_first, crate::proofs::Laws::Reading::circ_second))]
    pub(crate) fn circ_wrong(&self, e: usize) -> bool
        requires { e < first_term self.now.bytes.now }
        ensures { result ≡ circ_wrong self.now.bytes.now e }
    {
        let Ok(m) = self.wire_type_end(e + 1) else {
            return true;
        };
        self.wire_type_end(m).is_err()
    }

    // Whether the type of the box at entry e is no wire type.
    #[tactic(auto, using(crate::proofs::Laws::Reading::no_position, crate::proofs::Laws::Reading::box_test))]
    pub(crate) fn box_wrong(&self, e: usize) -> bool
        ensures { result ≡ box_wrong self.now.bytes.now e }
    {
        let position = argument_at(self.bytes, e);
        self.sizes.types <= position || self.wire_type_end(self.sizes.labels + position).is_err()
    }

    // Whether entry e is a Circ or box with a part or type that is no wire type.
    pub(crate) fn wires_wrong(&self, e: usize) -> bool
        ensures { result ≡ wires_wrong self.now.bytes.now e }
    {
        if e < self.sizes.labels {
            return false;
        }
        let kind = kind_at(self.bytes, e);
        if e < self.first_term() {
            return kind == CIRCUIT && self.circ_wrong(e);
        }
        kind == BOX && self.box_wrong(e)
    }
}
