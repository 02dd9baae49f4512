// What the program takes: bytes of the two files, objects, references and workers; and the room
// that it has for its answer, for the workers' words and for their tallies.
pub const MOST_STORE_BYTES: usize = 62064;

pub const MOST_ORDER_BYTES: usize = 65536;

// The settings at the front of `order.run`.
pub const ORDER_LENGTH: usize = 5;

pub const MOST_OBJECTS: usize = 1000;

pub const MOST_REFERENCES: usize = 4000;

pub const MOST_WORKERS: u32 = 4;

pub const TEXT_ROOM: usize = 49152;

pub const WORK_ROOM: usize = 8016;

pub const TALLIES_ROOM: usize = 16;
