// The circuits that a run builds, in lent memory: the gates of the open and of the closed circuits, and the results of the closed
// ones (docs/FORMATS.md has the layout).
// Nothing to believe. HoldsOpen and HoldsClosed (specs/Layout) say which circuits the memory holds.
// Main laws: one_more_closed and open_more (proofs/Laws/Held), what box exit and apply leave.
// Called by the steps, loading and the writer of listings.
#![tactic(auto)]

pub mod closed;
pub mod gates;
pub mod renamings;
pub mod tuples;
