// The numbers that bound a pool beside the limits that it is given. All are this project's own.

/// How many connections a pool makes in its life.
pub const MOST_CONNECTIONS: usize = 2147483647;

/// How many connections there may be where one more is judged: its number has 32 bits.
pub const MOST_JUDGED: usize = 4294967294;

/// How many streams a peer is taken to allow until it says how many (RFC 9113, section 6.5.2).
pub const MOST_UNSAID: u32 = 100;

/// How often an exchange may wait again.
pub const MOST_MOVES: u8 = 5;

/// Of how many origins, each in its partition, alternatives are kept.
pub const MOST_ORIGINS: usize = 1024;

/// For how many milliseconds an alternative that failed isn't used.
pub const BROKEN_FOR: u64 = 300000;

/// How many addresses of a host are noted.
pub const MOST_ADDRESSES: u64 = 16;
