// Evaluation on trees of nodes, in the order in which the machine keeps them: definitions and theorems only.
// Nothing to believe. State (specs/States) is what the machine holds, and decode the configuration of the rules that it stands for.
// Main theorem: step_is_next (proofs/Theorems/Running), the machine's step on trees is the step of the rules.
// The contracts of the machine speak of these trees.
#![tactic(auto)]
