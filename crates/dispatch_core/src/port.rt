// A port straight to a pool.
ghost use Rattle.std.specs.Prelude.{◌≡◌, ◌≢◌};
ghost use Rattle.dispatch_core.specs.Pools.{seen_by};

use crate::pool::Pool;
use model_histories::{PoolPort, ends_as_state_says, reports_as_state_says, works_as_state_says};
use model_values::{
    CancelReply, ChangeReply, ConnTicket, Look, OrdersReply, PreconnectReply, Report,
    ResolvedReply, Seek, ShutReply, Submission, SubmitReply, TicketKept,
};
use net_base::{
    Addresses, CallerNo, EndCause, ExchangeNo, Moment, NoMem, Octets, Origin, StreamList,
};
use partition_keys::PartitionKey;
use std::alloc::Global;

/// A pool as one caller uses it.
#[derive(Drop)]
pub struct DirectPort<'a> {
    pub(crate) pool: &'a mut Pool,
    pub(crate) who: CallerNo,
    ghost caller: { who.0 ≢ 0 },
}

impl<'a> DirectPort<'a> {
    /// The port of this caller.
    pub fn new(pool: &'a mut Pool, who: CallerNo) -> DirectPort<'a>
        requires { who.0 ≢ 0 }
        ensures same_reference { result.pool.ghost_name ≡ pool.entry.ghost_name }
        ensures pool { result.pool.now ≡ pool.old }
        ensures who { result.who ≡ who }
    {
        DirectPort { pool, who }
    }
}

impl<'a> PoolPort for DirectPort<'a> {
    ghost port = { λ p. seen_by p.pool.now p.who p.pool.ghost_name };

    fn submit(
        &mut self,
        alloc: Global,
        moment: Moment,
        ask: Submission,
    ) -> Result<SubmitReply, NoMem> {
        self.pool.submit(alloc, self.who, moment, ask)
    }

    fn look(&mut self, alloc: Global, moment: Moment, no: ExchangeNo) -> Result<Look, NoMem> {
        self.pool.look(alloc, self.who, moment, no)
    }

    fn cancel(
        &mut self,
        alloc: Global,
        moment: Moment,
        no: ExchangeNo,
    ) -> Result<CancelReply, NoMem> {
        self.pool.cancel(alloc, self.who, moment, no)
    }

    fn reprioritise(
        &mut self,
        alloc: Global,
        moment: Moment,
        no: ExchangeNo,
        urgency: u8,
    ) -> Result<ChangeReply, NoMem> {
        self.pool.reprioritise(alloc, self.who, moment, no, urgency)
    }

    fn preconnect(
        &mut self,
        alloc: Global,
        moment: Moment,
        key: PartitionKey,
        credentials: bool,
        origin: Origin,
        count: u32,
    ) -> Result<PreconnectReply, NoMem> {
        self.pool
            .preconnect(alloc, self.who, moment, key, credentials, origin, count)
    }

    fn resolved(
        &mut self,
        alloc: Global,
        moment: Moment,
        key: PartitionKey,
        host: Octets,
        addresses: Addresses,
    ) -> Result<ResolvedReply, NoMem> {
        self.pool
            .resolved(alloc, self.who, moment, key, host, addresses)
    }

    fn network_changed(&mut self, alloc: Global, moment: Moment) -> Result<(), NoMem> {
        self.pool.network_changed(alloc, self.who, moment)
    }

    fn shutdown(&mut self, alloc: Global, moment: Moment) -> Result<ShutReply, NoMem> {
        self.pool.shutdown(alloc, self.who, moment)
    }

    fn seek(&mut self, alloc: Global, moment: Moment) -> Result<Seek, NoMem> {
        self.pool.seek(alloc, self.who, moment)
    }

    fn orders(
        &mut self,
        alloc: Global,
        moment: Moment,
        conn: &ConnTicket,
        sent: u64,
    ) -> Result<OrdersReply, NoMem> {
        let _history = self.pool.history();
        works_as_state_says();
        self.pool.orders(alloc, self.who, moment, conn, sent)
    }

    fn report(
        &mut self,
        alloc: Global,
        moment: Moment,
        conn: &ConnTicket,
        sent: u64,
        r: Report,
    ) -> Result<(), NoMem> {
        let _history = self.pool.history();
        reports_as_state_says();
        self.pool.report(alloc, self.who, moment, conn, sent, r)
    }

    fn closed(
        &mut self,
        alloc: Global,
        moment: Moment,
        conn: ConnTicket,
        sent: u64,
        cause: EndCause,
        heard: StreamList,
    ) -> Result<(), TicketKept> {
        let _history = self.pool.history();
        ends_as_state_says();
        self.pool
            .closed(alloc, self.who, moment, conn, sent, cause, heard)
    }
}
