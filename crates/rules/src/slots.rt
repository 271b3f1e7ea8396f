// Slots for the wires of a gate (specs/Slots).

// What stands in a slot that no wire is in.
pub const NO_WIRE: usize = 65535;
