// The calls of a worker.
ghost use Rattle.std.specs.Prelude.{◌≡◌, ◌≢◌, ◌≤◌, Some, IfOk, OnOk, OnErr};
ghost use Rattle.std.specs.Result.{IfErr};
ghost use Rattle.model_histories.specs.Histories.{run};
ghost use Rattle.model_histories.specs.Legal.{MayTakeAt, MayReportAt, MayCloseAt};
ghost use Rattle.model_histories.specs.Replies.{dial_of};
ghost use Rattle.model_histories.specs.Working.{MayWorkAt};
ghost use Rattle.model_steps.specs.After as after;
ghost use Rattle.model_values.specs.declared.entry.Act.TheVariants as act;

use crate::answers::{Wanted, dialed, pending, rest_of};
use crate::orders::orders_at;
use crate::pool::Pool;
use model_histories::{next_dial, wanted_are_untouched};
use model_laws::texts::marks_have_one_order;
use model_steps::note;
use model_values::{
    AbstractPool, Act, ConnTicket, Entry, OrderMarks, OrdersReply, Report, Seek, TicketKept,
};
use net_base::{CallerNo, ConnNo, EndCause, Moment, NoMem, PlainValue, StreamList};
use pool_model::has_room_for_more;
use std::alloc::Global;

impl Pool {
    ghost use Rattle.dispatch_core.specs.Pools.{Enters, IsAsBefore, IsOrdersOf, IsSeekOf};

    /// Dials this connection.
    #[tactic(auto, using(crate::proofs::StepLemmas::before_then, crate::proofs::StepLemmas::enters_behind))]
    fn dial(
        &mut self,
        alloc: Global,
        s: AbstractPool,
        who: CallerNo,
        moment: Moment,
        number: u64,
    ) -> Result<Seek, NoMem>
        requires caller { who.0 ≢ 0 }
        requires noted { s ≡ after.noted (run self.old.config self.old.history) moment }
        requires next { dial_of s ≡ Some number }
        ensures ok { IfOk result (λ reply. IsSeekOf self.old who moment reply self.new) }
        ensures err { OnErr result (IsAsBefore self.old self.new) }
    {
        let _config = &self.config;
        let Wanted { conn, target } = dialed(alloc, &s, number)?;
        wanted_are_untouched();
        let goes_to = target.copy(alloc)?;
        let act = Act::Dial { conn, target };
        self.enter(alloc, s, Entry { who, moment, act })?;
        Ok(Seek::Dial(ConnTicket::new(conn), goes_to))
    }

    /// Asks for a connection to dial.
    #[tactic(auto, using(crate::proofs::StepLemmas::before_then, crate::proofs::StepLemmas::enters_behind, crate::proofs::StepLemmas::rests_behind))]
    pub fn seek(&mut self, alloc: Global, who: CallerNo, moment: Moment) -> Result<Seek, NoMem>
        requires caller { who.0 ≢ 0 }
        ensures ok { IfOk result (λ reply. IsSeekOf self.old who moment reply self.new) }
        ensures err { OnErr result (IsAsBefore self.old self.new) }
    {
        let mut s = self.taken(alloc)?;
        match next_dial(&s) {
            None => {
                let reply = rest_of(&s);
                self.keep(s);
                Ok(reply)
            }
            Some(number) => {
                if !has_room_for_more(&s) {
                    return Err(NoMem);
                }
                note(&mut s, moment);
                self.dial(alloc, s, who, moment, number)
            }
        }
    }

    /// Takes these orders of a connection, which are those that are pending.
    #[tactic(auto, using(crate::proofs::StepLemmas::before_then, crate::proofs::StepLemmas::enters_behind, crate::proofs::StepLemmas::before_same))]
    fn hand(
        &mut self,
        alloc: Global,
        s: AbstractPool,
        who: CallerNo,
        moment: Moment,
        conn: ConnNo,
        sent: u64,
        marks: OrderMarks,
    ) -> Result<OrdersReply, NoMem>
        requires caller { who.0 ≢ 0 }
        requires noted { s ≡ after.noted (run self.old.config self.old.history) moment }
        requires may { MayTakeAt s who conn sent marks }
        ensures ok { IfOk result (λ reply. IsOrdersOf self.old who moment conn sent reply self.new) }
        ensures err { OnErr result (IsAsBefore self.old self.new) }
    {
        let _config = &self.config;
        marks_have_one_order();
        let list = orders_at(alloc, &s, conn, marks.as_slice())?;
        let act = Act::Orders {
            conn,
            sent,
            orders: marks,
        };
        self.enter(alloc, s, Entry { who, moment, act })?;
        Ok(OrdersReply::Orders(list))
    }

    /// Takes the orders of a connection that the caller dialed and that was opened: all that are pending, or `Nothing` with the
    /// number of entries. `sent` counts the octets that its link took, and never falls.
    #[tactic(auto, using(crate::proofs::StepLemmas::before_then, crate::proofs::StepLemmas::enters_behind, crate::proofs::StepLemmas::rests_behind))]
    pub fn orders(
        &mut self,
        alloc: Global,
        who: CallerNo,
        moment: Moment,
        conn: &ConnTicket,
        sent: u64,
    ) -> Result<OrdersReply, NoMem>
        requires caller { who.0 ≢ 0 }
        requires works { MayWorkAt (run self.old.config self.old.history) who conn.now sent }
        ensures ok { IfOk result (λ reply. IsOrdersOf self.old who moment conn.now sent reply self.new) }
        ensures err { OnErr result (IsAsBefore self.old self.new) }
    {
        let conn = conn.no();
        let mut s = self.taken(alloc)?;
        let marks = pending(alloc, &s, conn)?;
        if marks.len() == 0 {
            let entries = s.entries;
            self.keep(s);
            return Ok(OrdersReply::Nothing(entries));
        }
        if !has_room_for_more(&s) {
            return Err(NoMem);
        }
        note(&mut s, moment);
        self.hand(alloc, s, who, moment, conn, sent, marks)
    }

    /// Reports of a connection that the caller dialed.
    #[tactic(auto, using(crate::proofs::StepLemmas::before_then, crate::proofs::StepLemmas::enters_behind))]
    pub fn report(
        &mut self,
        alloc: Global,
        who: CallerNo,
        moment: Moment,
        conn: &ConnTicket,
        sent: u64,
        r: Report,
    ) -> Result<(), NoMem>
        requires caller { who.0 ≢ 0 }
        requires tells { MayReportAt (run self.old.config self.old.history) who conn.now sent r }
        ensures ok { OnOk result (Enters self.old who moment (act.Reported conn.now sent r) self.new) }
        ensures err { OnErr result (IsAsBefore self.old self.new) }
    {
        let s = self.taken_at(alloc, moment)?;
        let act = Act::Reported {
            conn: conn.no(),
            sent,
            report: r,
        };
        self.enter(alloc, s, Entry { who, moment, act })
    }

    /// Gives up a connection: an entry without its ticket.
    #[tactic(auto, using(crate::proofs::StepLemmas::before_then, crate::proofs::StepLemmas::enters_behind))]
    fn give_up(
        &mut self,
        alloc: Global,
        who: CallerNo,
        moment: Moment,
        conn: ConnNo,
        sent: u64,
        cause: EndCause,
        heard: StreamList,
    ) -> Result<(), NoMem>
        requires caller { who.0 ≢ 0 }
        requires ends { MayCloseAt (run self.old.config self.old.history) who conn sent cause }
        ensures ok { OnOk result (Enters self.old who moment (act.Closed conn sent cause heard) self.new) }
        ensures err { OnErr result (IsAsBefore self.old self.new) }
    {
        let s = self.taken_at(alloc, moment)?;
        let act = Act::Closed {
            conn,
            sent,
            cause,
            heard,
        };
        self.enter(alloc, s, Entry { who, moment, act })
    }

    /// Gives up a connection. Want of memory gives the ticket back.
    #[tactic(auto, using(crate::proofs::StepLemmas::before_then, crate::proofs::StepLemmas::enters_behind))]
    pub fn closed(
        &mut self,
        alloc: Global,
        who: CallerNo,
        moment: Moment,
        conn: ConnTicket,
        sent: u64,
        cause: EndCause,
        heard: StreamList,
    ) -> Result<(), TicketKept>
        requires caller { who.0 ≢ 0 }
        requires ends { MayCloseAt (run self.old.config self.old.history) who conn sent cause }
        ensures ok { OnOk result (Enters self.old who moment (act.Closed conn sent cause heard) self.new) }
        ensures err { IfErr result (λ kept. (kept.0 ≡ conn) × IsAsBefore self.old self.new) }
    {
        match self.give_up(alloc, who, moment, conn.no(), sent, cause, heard) {
            Ok(()) => {
                conn.spend();
                Ok(())
            }
            Err(_) => Err(TicketKept(conn)),
        }
    }
}
