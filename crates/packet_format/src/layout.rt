// The sizes of a packet.

// The bytes before the contents table.
pub const HEADER_BYTES: usize = 4;

// The bytes of an entry of the contents table.
pub const ENTRY_BYTES: usize = 16;

// The most messages of a packet.
pub const COUNT_MAX: usize = 64;

// The most bytes of a packet.
pub const TOTAL_MAX: usize = 1400;
