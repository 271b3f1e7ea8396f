// The sizes of 01: of a program file, of the types of nodes, and of a configuration.

// Labels, type entries and term entries of a file.
pub const MOST_LABELS: usize = 64;

pub const MOST_TYPES: usize = 512;

pub const MOST_TERMS: usize = 2048;

// Entries of the type of a node.
pub const MOST_ENTRIES: usize = 512;

// Term nodes, gates and closed boxes of a configuration.
pub const MOST_NODES: usize = 4096;

pub const MOST_GATES: usize = 2048;

pub const MOST_BOXES: usize = 256;
