// The numbers that a state in lent memory has beside its buffers, and what a step on it answers.
// A step answers the numbers of the next state, or None where the next configuration would exceed a size; then the configuration is
// as before.
// Nothing to believe. HoldsState (specs/Memory) says which state the memory holds with its numbers; Steps (specs/Outcomes) is the
// one contract of all six kinds of step.
// Main laws: proofs/Laws/Frames, which writes keep the frames.
// Used by loading, the steps, the machine and the run.
#![tactic(auto)]

ghost use Rattle.std.specs.Prelude.{◌+◌, ◌≡◌, ltb};

use machine_walk::Place;

// How much there is of what a configuration counts.
#[derive(Clone, Copy)]
pub struct Counts {
    // Frames, the outermost one and one for each open box.
    pub frames: usize,
    // Gates of the open circuits.
    pub gates: usize,
    // Boxes closed, each of which left a circuit.
    pub boxes: usize,
    // Gates of the closed circuits, which are kept.
    pub kept: usize,
}

// The numbers of a state: with them the buffers hold it.
#[derive(Clone, Copy)]
pub struct StateNumbers {
    // Where the walk stands.
    pub place: Place,
    // How many frames, gates and boxes there are.
    pub counts: Counts,
}

// The lent buffers in which a state stands, apart from those that hold nothing between steps. Each contract of a function that takes it
// says SameBuffers: what holds a `&mut` has to say that it is still the caller's. Functions that need some of the buffers take these one
// by one: on the struct they would have to say of each other buffer that it is as it was.
#[derive(Drop)]
pub struct Buffers<'a> {
    // The nodes of all frames, walked and still to be walked.
    pub nodes: &'a mut [u8],
    // The stack of opened nodes.
    pub stack: &'a mut [u8],
    // The codes of the file's types.
    pub types: &'a [u8],
    // The frames.
    pub frames: &'a mut [u8],
    // The gates of the open and of the closed circuits.
    pub gates: &'a mut [u8],
    // The closed circuits.
    pub circuits: &'a mut [u8],
    // Their results, 64 in each buffer.
    pub results0: &'a mut [u8],
    pub results1: &'a mut [u8],
    pub results2: &'a mut [u8],
    pub results3: &'a mut [u8],
}

// Do three numbers together exceed a limit? No sum is made, since one could wrap.
pub fn exceed(limit: usize, a: usize, b: usize, c: usize) -> bool
    ensures { result ≡ ltb limit (a + b + c) }
{
    limit < a || limit - a < b || limit - a - b < c
}
