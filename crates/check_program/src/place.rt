// Where a term stands in a file.
ghost use Rattle.std.specs.Prelude.{◌≡◌, ◌+◌, ◌<◌, ◌≤◌};
ghost use Rattle.check_program.specs.Inferring.{binders_inside, lifts_inside, binders_after};
ghost use Rattle.check_program.specs.Layout.{most_binders};

use rules::kinds::{ABSTRACTION, LET, LIFT};

// Where a term stands: at this entry, under so many binders and lifts.
#[derive(Clone, Copy)]
pub(crate) struct TermPlace {
    pub(crate) entry: usize,
    pub(crate) binders: usize,
    pub(crate) lifts: usize,
    ghost entry_fits: { entry < 65536 },
    ghost binders_fit: { binders ≤ most_binders },
    ghost lifts_fit: { lifts ≤ most_binders },
}

impl TermPlace {
    // Where the first part of a node of this kind stands: right behind the node.
    pub(crate) fn inside(self, kind: usize) -> TermPlace
        requires entry_fits { self.entry + 1 < 65536 }
        requires binders_fit { self.binders < most_binders }
        requires lifts_fit { self.lifts < most_binders }
        ensures entry { result.entry ≡ self.entry + 1 }
        ensures binders { result.binders ≡ binders_inside kind self.binders }
        ensures lifts { result.lifts ≡ lifts_inside kind self.lifts }
    {
        TermPlace {
            entry: self.entry + 1,
            binders: self.binders + usize::from(kind == ABSTRACTION),
            lifts: self.lifts + usize::from(kind == LIFT),
        }
    }

    // Where the second part of a node of this kind stands, from this entry on.
    pub(crate) fn after(self, kind: usize, next: usize) -> TermPlace
        requires entry_fits { next < 65536 }
        requires binders_fit { self.binders + 2 ≤ most_binders }
        ensures entry { result.entry ≡ next }
        ensures binders { result.binders ≡ binders_after kind self.binders }
        ensures lifts { result.lifts ≡ self.lifts }
    {
        TermPlace {
            entry: next,
            binders: self.binders + 2 * usize::from(kind == LET),
            lifts: self.lifts,
        }
    }
}
