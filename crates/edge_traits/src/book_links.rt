// The place of a link that a dialer in memory gave, and what such a link counts.

/// Where a dial put a link: its connection, and how many octets it may give.
#[derive(Clone, Copy, Debug, PartialEq, Eq)]
pub struct OutLink {
    pub conn: u32,
    pub allowance: u64,
}

/// What a link, or a dialer over all its links, counts: failed calls, quiet reads, quiet writes, and ends.
#[derive(Clone, Copy, Debug, PartialEq, Eq)]
pub struct Tally {
    pub faults: u64,
    pub read_quiets: u64,
    pub write_quiets: u64,
    pub ends: u64,
}

impl Tally {
    ghost use Rattle.std.specs.Prelude.{◌≡◌};
    ghost use Rattle.edge_traits.specs.Counts.{NoneFell, counts_sum};
    ghost use Rattle.edge_traits.specs.BookLinks.{counts_of};

    /// Adds another's counts, each of which stays at its last value once it is there.
    pub fn add(&mut self, other: Tally)
        ensures sum { counts_of self.new ≡ counts_sum (counts_of self.old) (counts_of other) }
        ensures keeps { NoneFell (counts_of self.old) (counts_of self.new) }
    {
        self.faults = self.faults.saturating_add(other.faults);
        self.read_quiets = self.read_quiets.saturating_add(other.read_quiets);
        self.write_quiets = self.write_quiets.saturating_add(other.write_quiets);
        self.ends = self.ends.saturating_add(other.ends);
    }
}

/// No counts.
pub const NO_TALLY: Tally = Tally {
    faults: 0,
    read_quiets: 0,
    write_quiets: 0,
    ends: 0,
};
