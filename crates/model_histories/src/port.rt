// What a caller of a pool uses, whether the pool is its own or shared with others.
ghost use Rattle.std.specs.Prelude.{◌≡◌, ◌≤◌, MatchResult};
ghost use Rattle.model_histories.specs.Legal.{HasOnePart};
ghost use Rattle.model_histories.specs.Port.{PortView, Leaves, LeavesNone, IsLookAt, IsSeekAt, IsOrdersAt, MayWorkBy, MayReportBy, MayCloseBy};
ghost use Rattle.model_values.specs.declared.entry.Act.TheVariants as act;

use model_values::{
    CancelReply, ChangeReply, ConnTicket, Look, OrdersReply, PreconnectReply, Report,
    ResolvedReply, Seek, ShutReply, Submission, SubmitReply, TicketKept,
};
use net_base::{Addresses, EndCause, ExchangeNo, Moment, NoMem, Octets, Origin, StreamList};
use partition_keys::PartitionKey;
use std::alloc::Global;

/// A pool as one caller uses it. Each call leaves its entry once, if it has one, in a history that extends what the
/// caller had seen, and its reply is the one that the abstract pool gives there. After want of memory the call has left
/// no entry. What is seen after a call is a history. The answer of a look, and of a call that leaves no entry, is that of
/// the state which this history leaves.
pub trait PoolPort {
    /// What the port shows: limits, caller, history, and whose entries a call may bring.
    ghost port: { Self → PortView };

    /// Submits an exchange. The urgency is at most 7, and the key has one part.
    fn submit(
        &mut self,
        alloc: Global,
        moment: Moment,
        ask: Submission,
    ) -> Result<SubmitReply, NoMem>
        requires urgency { ask.urgency ≤ 7 }
        requires key { HasOnePart ask.key }
        ensures { MatchResult result (λ reply. Leaves (port self.old) moment (act.Submit ask reply) (port self.new)) (λ _. LeavesNone (port self.old) (port self.new)) };

    /// What has become of an exchange. A look that comes late lets the pool do first what is due.
    fn look(&mut self, alloc: Global, moment: Moment, no: ExchangeNo) -> Result<Look, NoMem>
        ensures { MatchResult result (λ reply. IsLookAt (port self.old) moment no reply (port self.new)) (λ _. LeavesNone (port self.old) (port self.new)) };

    /// Cancels an exchange.
    fn cancel(
        &mut self,
        alloc: Global,
        moment: Moment,
        no: ExchangeNo,
    ) -> Result<CancelReply, NoMem>
        ensures { MatchResult result (λ reply. Leaves (port self.old) moment (act.Cancel no reply) (port self.new)) (λ _. LeavesNone (port self.old) (port self.new)) };

    /// Sets the urgency of an exchange, at most 7.
    fn reprioritise(
        &mut self,
        alloc: Global,
        moment: Moment,
        no: ExchangeNo,
        urgency: u8,
    ) -> Result<ChangeReply, NoMem>
        requires { urgency ≤ 7 }
        ensures { MatchResult result (λ reply. Leaves (port self.old) moment (act.Reprioritise no urgency reply) (port self.new)) (λ _. LeavesNone (port self.old) (port self.new)) };

    /// Opens connections ahead, at least one. The key has one part.
    fn preconnect(
        &mut self,
        alloc: Global,
        moment: Moment,
        key: PartitionKey,
        credentials: bool,
        origin: Origin,
        count: u32,
    ) -> Result<PreconnectReply, NoMem>
        requires count { 1 ≤ count }
        requires key { HasOnePart key }
        ensures { MatchResult result (λ reply. Leaves (port self.old) moment (act.Preconnect key credentials origin count reply) (port self.new)) (λ _. LeavesNone (port self.old) (port self.new)) };

    /// Notes the addresses of a host. The key has one part.
    fn resolved(
        &mut self,
        alloc: Global,
        moment: Moment,
        key: PartitionKey,
        host: Octets,
        addresses: Addresses,
    ) -> Result<ResolvedReply, NoMem>
        requires { HasOnePart key }
        ensures { MatchResult result (λ reply. Leaves (port self.old) moment (act.Resolved key host addresses reply) (port self.new)) (λ _. LeavesNone (port self.old) (port self.new)) };

    /// Says that the network changed.
    fn network_changed(&mut self, alloc: Global, moment: Moment) -> Result<(), NoMem>
        ensures { MatchResult result (λ _. Leaves (port self.old) moment act.Network (port self.new)) (λ _. LeavesNone (port self.old) (port self.new)) };

    /// Shuts the pool down.
    fn shutdown(&mut self, alloc: Global, moment: Moment) -> Result<ShutReply, NoMem>
        ensures { MatchResult result (λ reply. Leaves (port self.old) moment (act.Shutdown reply) (port self.new)) (λ _. LeavesNone (port self.old) (port self.new)) };

    /// Asks for a connection to dial.
    fn seek(&mut self, alloc: Global, moment: Moment) -> Result<Seek, NoMem>
        ensures { MatchResult result (λ reply. IsSeekAt (port self.old) moment reply (port self.new)) (λ _. LeavesNone (port self.old) (port self.new)) };

    /// Takes the orders of a connection that the caller dialed and that was opened. `sent` counts the octets that its
    /// link took, and never falls.
    fn orders(
        &mut self,
        alloc: Global,
        moment: Moment,
        conn: &ConnTicket,
        sent: u64,
    ) -> Result<OrdersReply, NoMem>
        requires { MayWorkBy (port self.old) conn.now sent }
        ensures { MatchResult result (λ reply. IsOrdersAt (port self.old) moment conn.now sent reply (port self.new)) (λ _. LeavesNone (port self.old) (port self.new)) };

    /// Reports of a connection that the caller dialed: Opened once and first, and of a stream only what was started.
    /// `sent` never falls.
    fn report(
        &mut self,
        alloc: Global,
        moment: Moment,
        conn: &ConnTicket,
        sent: u64,
        r: Report,
    ) -> Result<(), NoMem>
        requires { MayReportBy (port self.old) conn.now sent r }
        ensures { MatchResult result (λ _. Leaves (port self.old) moment (act.Reported conn.now sent r) (port self.new)) (λ _. LeavesNone (port self.old) (port self.new)) };

    /// Gives up a connection: with `DialFailed` before it was opened, and with any other cause after that. `sent` never
    /// falls. Want of memory gives the ticket back.
    fn closed(
        &mut self,
        alloc: Global,
        moment: Moment,
        conn: ConnTicket,
        sent: u64,
        cause: EndCause,
        heard: StreamList,
    ) -> Result<(), TicketKept>
        requires { MayCloseBy (port self.old) conn sent cause }
        ensures { MatchResult result (λ _. Leaves (port self.old) moment (act.Closed conn sent cause heard) (port self.new)) (λ kept. (kept.0 ≡ conn) × LeavesNone (port self.old) (port self.new)) };
}
