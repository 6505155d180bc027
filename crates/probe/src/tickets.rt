// The tickets that a pool's seeks gave.
ghost use Rattle.std.specs.Prelude.{◌<◌};
ghost use Rattle.std.specs.Option.{IfSome};
ghost use Rattle.std.specs.Vec.{vec_len};

use model_values::ConnTicket;
use net_base::{CallerNo, ConnNo, NoMem};
use std::alloc::{AllocFailed, Global};

/// The tickets that seeks gave and that no call took back. A ticket can't be dropped, and neither can these.
pub(crate) struct Tickets {
    held: Vec<Held>,
}

/// A ticket, and the caller whose seek gave it.
struct Held {
    who: CallerNo,
    ticket: ConnTicket,
}

impl Tickets {
    /// No ticket.
    pub(crate) fn new(alloc: Global) -> Tickets {
        Tickets {
            held: Vec::new(alloc),
        }
    }

    /// Keeps a ticket. Where there is no memory, it is spent.
    pub(crate) fn keep(&mut self, who: CallerNo, ticket: ConnTicket) -> Result<(), NoMem> {
        match self.held.push(Held { who, ticket }) {
            Ok(()) => Ok(()),
            Err(AllocFailed { value }) => {
                value.spend();
                Err(NoMem)
            }
        }
    }

    /// This caller's ticket for this connection.
    pub(crate) fn of(&self, who: CallerNo, conn: ConnNo) -> Option<&ConnTicket> {
        let place = self.place_of(who, conn)?;
        Some(&self.held[place].ticket)
    }

    /// Takes out this caller's ticket for this connection.
    pub(crate) fn take(&mut self, who: CallerNo, conn: ConnNo) -> Option<ConnTicket> {
        let place = self.place_of(who, conn)?;
        let Held { who: _, ticket } = self.held.swap_remove(place);
        Some(ticket)
    }

    fn place_of(&self, who: CallerNo, conn: ConnNo) -> Option<usize>
        ensures { IfSome result (λ place. place < vec_len self.now.held) }
    {
        self.held
            .as_slice()
            .iter()
            .position(|it| it.is_for(who, conn))
    }

    /// Spends all.
    pub(crate) fn spend(self) {
        let Tickets { mut held } = self;
        while let Some(one) = held.pop() {
            one.spend();
        }
        held.destroy_empty();
    }
}

impl Held {
    fn is_for(&self, who: CallerNo, conn: ConnNo) -> bool {
        self.who == who && self.ticket.no() == conn
    }

    fn spend(self) {
        let Held { who: _, ticket } = self;
        ticket.spend();
    }
}
