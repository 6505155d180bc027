// The right to work a connection.
ghost use Rattle.std.specs.Prelude.{◌≡◌};

use net_base::ConnNo;
use std::marker::Model;

/// The right to work one connection. `seek` gives it, and `closed` takes it back. It can't be dropped and can't be
/// copied, so one worker at a time has a connection.
#[derive(Debug)]
pub struct ConnTicket {
    conn: ConnNo,
}

impl Model for ConnTicket {
    ghost use Rattle.net_base.specs.declared.numbers.ConnNo.{ConnNo};

    ghost Value = { ConnNo };

    ghost view = { λ t. t.conn };
}

impl ConnTicket {
    /// A ticket for a connection. For pools alone: a ticket that no `seek` gave is refused by the conditions of the
    /// pool's calls.
    pub fn new(no: ConnNo) -> ConnTicket
        ensures { result ≡ no }
    {
        ConnTicket { conn: no }
    }

    /// The connection's number.
    pub fn no(&self) -> ConnNo
        ensures { result ≡ self.now }
    {
        self.conn
    }

    /// Spends the ticket. For pools alone.
    pub fn spend(self) -> ConnNo
        ensures { result ≡ self }
    {
        let ConnTicket { conn } = self;
        conn
    }
}
