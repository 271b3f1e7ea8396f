// That boxing does not change a circuit (02, ticket 10), over the rules: theorems only.
// Believe: specs/Spots.
// Main theorems: box_changes_nothing, boxes_change_nothing (proofs/Theorems/Boxing), unboxed_has_type (Types), every_part_at_a_spot
// (Places). Crate run_boxing has the same of files and listings.
// Nothing calls it.
#![tactic(auto)]
