// What an operation leaves in the buffers that it was lent: definitions only.
// Believe: specs/Lent, which buffers are too short (too_short) and the final bytes of all (bytes_left).
// Main laws: short_left and long_left (proofs/Laws/Lent), the final bytes after 19 and after any other answer.
// The contracts of check, run and the exported functions speak of it.
#![tactic(auto)]
