// What the pool is to do by itself.

use model_values::Way;
use net_base::{ConnNo, ExchangeNo, StreamNo};

/// What the pool is to do by itself. The target of a connection that is wanted is that of its exchange.
#[derive(Clone, Copy, Debug, PartialEq, Eq)]
pub enum Due {
    Expire(ExchangeNo),
    Lapse(ExchangeNo),
    Assign {
        exchange: ExchangeNo,
        conn: ConnNo,
        stream: StreamNo,
        way: Way,
    },
    Want {
        exchange: ExchangeNo,
        conn: ConnNo,
    },
    Evict(ConnNo),
}

/// The best item so far: its number and its key.
#[derive(Clone, Copy, Debug, PartialEq, Eq)]
pub struct Best {
    pub number: u64,
    pub key: u64,
}
