// What a document may ask for. Each is refused by a reason of its own where it is passed.

/// The bytes of a file: lines and places of names are counted by 32 bits.
pub const MAX_BYTES: usize = u32::MAX as usize;

/// The nodes, the root counted: their numbers have 32 bits.
pub const MAX_NODES: usize = u32::MAX as usize;

/// The elements that are open at once.
pub const MAX_DEPTH: usize = 100_000;

/// The entities that are open at once, each in the one before.
pub const MAX_OPEN_ENTITIES: u32 = 256;

/// The groups of a content model that are open at once.
pub const MAX_OPEN_GROUPS: usize = 100_000;

/// The bytes that entities and defaults may stand for in any document ..
pub const FREE_EXPANSION: usize = 8 << 20;

/// .. and for each byte of a document, where that is more.
pub const EXPANSION_FACTOR: usize = 100;
