// That boxing does not change a listing (02, ticket 10): theorems only.
// Believe: specs/Files.
// Main theorems: box_changes_no_byte, boxes_change_no_byte, unboxed_accepted (proofs/Theorems/Listings).
// Nothing calls it.
#![tactic(auto)]
