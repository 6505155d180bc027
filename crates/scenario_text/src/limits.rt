// The numbers that bound scenarios.

use model_values::Config;

/// The greatest number of a stream (RFC 9113, section 5.1.1).
pub(crate) const MOST_STREAM: u32 = 2147483647;

/// The most submissions of a scenario, and of a pool.
pub(crate) const MOST_SUBMISSIONS: u64 = 5000;

/// The most octets of a request's body.
pub(crate) const MOST_BODY: u32 = 1048576;

/// The limits of a pool where a scenario gives none. All but `background` are also the most that a scenario may give.
pub const DEFAULT_CONFIG: Config = Config {
    per_group: 6,
    total: 32,
    streams: 100,
    background: 2,
    last_stream: MOST_STREAM,
    submissions: MOST_SUBMISSIONS,
};
