// Whether limits are within their ranges.
ghost use Rattle.std.specs.Prelude.{◌↔◌, ◌≤◌, IsTrue};
ghost use Rattle.dispatch_core.specs.Ranges.{AreWithinRanges, IsFromTo};

use model_values::Config;

fn is_from_to(least: u32, most: u32, n: u32) -> bool
    ensures { IsTrue result ↔ IsFromTo least most n }
{
    least <= n && n <= most
}

/// Whether these limits are within the ranges that a pool takes: 1 to 6 connections a group, 1 to 32 in all, 1 to 100 streams
/// a connection, at most 32 background exchanges, a last stream from 1 to 2147483647, and 1 to 5000 submissions. The ranges
/// are this project's own.
pub fn are_within_ranges(config: &Config) -> bool
    ensures { IsTrue result ↔ AreWithinRanges config.now }
{
    is_from_to(1, 6, config.per_group)
        && is_from_to(1, 32, config.total)
        && is_from_to(1, 100, config.streams)
        && config.background <= 32
        && is_from_to(1, 2147483647, config.last_stream)
        && 1 <= config.submissions
        && config.submissions <= 5000
}
