// The cases c1 to c12 of 01 and those of 02 with their files, programs, checks and runs, and listings with what a check of them
// answers: definitions and theorems only.
// Believe: specs/Case, BaseCases, FirstFaults, CopiedPairs, Table, Answers and Listings.
// Main theorems: all_hold, the table by computation from the files' bytes; least_answers, for buffers of the least lengths;
// listings_hold and listing_answers, the same of the listings.
// Nothing calls it.
#![tactic(auto)]
