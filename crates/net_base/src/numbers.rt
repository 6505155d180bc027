// Numbers that must not be mixed, and numbers in decimal.
ghost use Rattle.std.specs.Prelude.{◌≡◌, ◌<◌, ◌^◌, ℕ, Some};
ghost use Rattle.std.specs.Fmt.{decimal};

use plain_values::{Listed, NoMem, PlainValue};
use std::alloc::Global;

/// The number of an exchange, counted from 1 in the order of submission.
#[derive(Clone, Copy, Debug, PartialEq, Eq)]
pub struct ExchangeNo(pub u64);

/// The number of a connection, counted from 1 in the order in which they were wanted.
#[derive(Clone, Copy, Debug, PartialEq, Eq)]
pub struct ConnNo(pub u32);

/// The number of a stream on its connection, counted from 1.
#[derive(Clone, Copy, Debug, PartialEq, Eq)]
pub struct StreamNo(pub u32);

/// A list of streams.
pub type StreamList = Listed<StreamNo>;

/// The number of a caller of the pool: a channel from 1 on, a worker from 101 on, 999 for the shutdown. 0 is the pool itself.
#[derive(Clone, Copy, Debug, PartialEq, Eq)]
pub struct CallerNo(pub u32);

/// A moment, in milliseconds.
#[derive(Clone, Copy, Debug, PartialEq, Eq)]
pub struct Moment(pub u64);

impl PlainValue for ExchangeNo {
    fn copy(&self, _alloc: Global) -> Result<ExchangeNo, NoMem> {
        Ok(*self)
    }

    fn same(&self, other: &ExchangeNo) -> bool {
        self.0 == other.0
    }
}

impl PlainValue for ConnNo {
    fn copy(&self, _alloc: Global) -> Result<ConnNo, NoMem> {
        Ok(*self)
    }

    fn same(&self, other: &ConnNo) -> bool {
        self.0 == other.0
    }
}

impl PlainValue for StreamNo {
    fn copy(&self, _alloc: Global) -> Result<StreamNo, NoMem> {
        Ok(*self)
    }

    fn same(&self, other: &StreamNo) -> bool {
        self.0 == other.0
    }
}

impl PlainValue for CallerNo {
    fn copy(&self, _alloc: Global) -> Result<CallerNo, NoMem> {
        Ok(*self)
    }

    fn same(&self, other: &CallerNo) -> bool {
        self.0 == other.0
    }
}

impl PlainValue for Moment {
    fn copy(&self, _alloc: Global) -> Result<Moment, NoMem> {
        Ok(*self)
    }

    fn same(&self, other: &Moment) -> bool {
        self.0 == other.0
    }
}

/// The number that the text is read as: of each number's decimal, that number. Other texts may be read as a number too.
pub fn number_in(text: &[u8]) -> Option<u64>
    ensures { (n : ℕ) → n < 2 ^ 64 → text.now ≡ decimal n → result ≡ Some n }
{
    match std::str::from_utf8(text) {
        Ok(text) => text.parse::<u64>().ok(),
        Err(_) => None,
    }
}
