// That every listing which a run writes is accepted (02, ticket 3): a theorem only.
// Believe: specs/Accepted.
// Main theorem: run_listing_accepted (proofs/Theorems/Listings).
// Nothing calls it.
#![tactic(auto)]
