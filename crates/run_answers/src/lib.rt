// What a run has to answer (01, "When each operation says no", Run): the answer, its definitions and the theorems about them.
// Believe: specs/Lengths, Answers, Demand2 and Safe.
// Main theorems: run_means and run_is_safe (proofs/Theorems/Running), demands 2 and 3 of a run.
// The contract of run speaks in these definitions. It needs nothing of the machine, so that it is proved beside it.
#![tactic(auto)]

// What a finished run answers: its steps, its gates, and the length of the listing that it wrote. Any other run answers a refusal.
#[derive(Clone, Copy)]
pub struct Finished {
    pub steps: usize,
    pub gates: usize,
    pub length: usize,
}
