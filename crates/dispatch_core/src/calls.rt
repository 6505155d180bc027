// The calls of who submits: each leaves its entry, and what the pool does by itself behind it.
ghost use Rattle.std.specs.Prelude.{◌≡◌, ◌≢◌, ◌≤◌, true, IfOk, IsOk, OnOk, OnErr};
ghost use Rattle.model_histories.specs.Histories.{run};
ghost use Rattle.model_histories.specs.Legal.{HasOnePart};
ghost use Rattle.model_histories.specs.Looks.{IsLateAt};
ghost use Rattle.model_settling.specs.Settling.{IsLate};
ghost use Rattle.model_steps.specs.After as after;
ghost use Rattle.model_values.specs.declared.entry.Act.TheVariants as act;

use crate::answers::{is_late_at, look_at};
use crate::follow::{Looked, looked_at};
use crate::pool::Pool;
use model_histories::{
    cancel_reply, change_reply, preconnect_reply, resolved_reply, shut_reply, submit_reply,
};
use model_laws::sound::reached_is_sound;
use model_steps::note;
use model_values::{
    AbstractPool, Act, CancelReply, ChangeReply, Entry, Look, PreconnectReply, ResolvedReply,
    ShutReply, Submission, SubmitReply,
};
use net_base::{Addresses, CallerNo, ExchangeNo, Moment, NoMem, Octets, Origin};
use partition_keys::PartitionKey;
use pool_model::has_room_for_more;
use std::alloc::Global;

impl Pool {
    ghost use Rattle.dispatch_core.specs.Pools.{Enters, HasItsEnd, IsAsBefore, IsLookOf};

    /// Submits an exchange.
    #[tactic(auto, using(crate::proofs::StepLemmas::before_then, crate::proofs::StepLemmas::enters_behind))]
    pub fn submit(
        &mut self,
        alloc: Global,
        who: CallerNo,
        moment: Moment,
        ask: Submission,
    ) -> Result<SubmitReply, NoMem>
        requires caller { who.0 ≢ 0 }
        requires urgency { ask.urgency ≤ 7 }
        requires key { HasOnePart ask.key }
        ensures ok { IfOk result (λ reply. Enters self.old who moment (act.Submit ask reply) self.new) }
        ensures err { OnErr result (IsAsBefore self.old self.new) }
    {
        let s = self.taken_at(alloc, moment)?;
        if s.exchanges.len() as u64 == u64::MAX {
            return Err(NoMem);
        }
        let reply = submit_reply(&s, &ask);
        let act = Act::Submit { ask, reply };
        self.enter(alloc, s, Entry { who, moment, act })?;
        Ok(reply)
    }

    /// Cancels an exchange.
    #[tactic(auto, using(crate::proofs::StepLemmas::before_then, crate::proofs::StepLemmas::enters_behind))]
    pub fn cancel(
        &mut self,
        alloc: Global,
        who: CallerNo,
        moment: Moment,
        no: ExchangeNo,
    ) -> Result<CancelReply, NoMem>
        requires caller { who.0 ≢ 0 }
        ensures ok { IfOk result (λ reply. Enters self.old who moment (act.Cancel no reply) self.new) }
        ensures err { OnErr result (IsAsBefore self.old self.new) }
    {
        let s = self.taken_at(alloc, moment)?;
        let reply = cancel_reply(&s, who, no);
        let act = Act::Cancel {
            exchange: no,
            reply,
        };
        self.enter(alloc, s, Entry { who, moment, act })?;
        Ok(reply)
    }

    /// A look that is late: what it answers comes behind a tick.
    #[tactic(auto, using(crate::proofs::StepLemmas::before_then, crate::proofs::StepLemmas::enters_behind))]
    fn look_late(
        &mut self,
        alloc: Global,
        s: AbstractPool,
        who: CallerNo,
        moment: Moment,
        no: ExchangeNo,
    ) -> Result<Look, NoMem>
        requires caller { who.0 ≢ 0 }
        requires noted { s ≡ after.noted (run self.old.config self.old.history) moment }
        requires late { IsLate s }
        ensures ok { IfOk result (λ reply. IsLookOf self.old who moment no reply self.new) }
        ensures err { OnErr result (IsAsBefore self.old self.new) }
    {
        let length = self.history.len();
        let e = Entry {
            who,
            moment,
            act: Act::Tick,
        };
        match looked_at(alloc, &self.config, &mut self.history, s, e, no) {
            Ok(Looked { s, reply }) => {
                self.state = Some(s);
                Ok(reply)
            }
            Err(_) => {
                self.history.items.truncate(length);
                Err(NoMem)
            }
        }
    }

    /// A look that isn't late.
    #[tactic(auto, using(crate::proofs::StepLemmas::before_same))]
    fn look_in_time(
        &mut self,
        alloc: Global,
        s: AbstractPool,
        who: CallerNo,
        moment: Moment,
        no: ExchangeNo,
    ) -> Result<Look, NoMem>
        requires state { s ≡ run self.old.config self.old.history }
        requires in_time { ¬ IsLateAt s moment }
        ensures ok { IfOk result (λ reply. IsLookOf self.old who moment no reply self.new) }
        ensures err { OnErr result (IsAsBefore self.old self.new) }
        ensures spare { (¬ HasItsEnd s who no) → IsOk result }
    {
        let _config = &self.config;
        let reply = look_at(alloc, &s, who, no)?;
        self.keep(s);
        Ok(reply)
    }

    /// What has become of an exchange. A look that comes late lets the pool do first what is due. One that isn't late takes no
    /// memory where the state is at hand, but for the copy of an end.
    #[tactic(auto, using(crate::proofs::StepLemmas::before_then, crate::proofs::StepLemmas::enters_behind))]
    pub fn look(
        &mut self,
        alloc: Global,
        who: CallerNo,
        moment: Moment,
        no: ExchangeNo,
    ) -> Result<Look, NoMem>
        requires caller { who.0 ≢ 0 }
        ensures ok { IfOk result (λ reply. IsLookOf self.old who moment no reply self.new) }
        ensures err { OnErr result (IsAsBefore self.old self.new) }
        ensures spare { self.old.at_hand ≡ true → (¬ IsLateAt (run self.old.config self.old.history) moment) → (¬ HasItsEnd (run self.old.config self.old.history) who no) → IsOk result }
    {
        reached_is_sound();
        let mut s = self.taken(alloc)?;
        if !is_late_at(&mut s, moment) {
            return self.look_in_time(alloc, s, who, moment, no);
        }
        if !has_room_for_more(&s) {
            return Err(NoMem);
        }
        note(&mut s, moment);
        self.look_late(alloc, s, who, moment, no)
    }

    /// Sets the urgency of an exchange, at most 7.
    #[tactic(auto, using(crate::proofs::StepLemmas::before_then, crate::proofs::StepLemmas::enters_behind))]
    pub fn reprioritise(
        &mut self,
        alloc: Global,
        who: CallerNo,
        moment: Moment,
        no: ExchangeNo,
        urgency: u8,
    ) -> Result<ChangeReply, NoMem>
        requires caller { who.0 ≢ 0 }
        requires urgency { urgency ≤ 7 }
        ensures ok { IfOk result (λ reply. Enters self.old who moment (act.Reprioritise no urgency reply) self.new) }
        ensures err { OnErr result (IsAsBefore self.old self.new) }
    {
        let s = self.taken_at(alloc, moment)?;
        let reply = change_reply(&s, who, no);
        let act = Act::Reprioritise {
            exchange: no,
            urgency,
            reply,
        };
        self.enter(alloc, s, Entry { who, moment, act })?;
        Ok(reply)
    }

    /// Opens connections ahead, at least one.
    #[tactic(auto, using(crate::proofs::StepLemmas::before_then, crate::proofs::StepLemmas::enters_behind))]
    pub fn preconnect(
        &mut self,
        alloc: Global,
        who: CallerNo,
        moment: Moment,
        key: PartitionKey,
        credentials: bool,
        origin: Origin,
        count: u32,
    ) -> Result<PreconnectReply, NoMem>
        requires caller { who.0 ≢ 0 }
        requires count { 1 ≤ count }
        requires key { HasOnePart key }
        ensures ok { IfOk result (λ reply. Enters self.old who moment (act.Preconnect key credentials origin count reply) self.new) }
        ensures err { OnErr result (IsAsBefore self.old self.new) }
    {
        let s = self.taken_at(alloc, moment)?;
        let reply = preconnect_reply(&s, &key, credentials, &origin, count);
        let act = Act::Preconnect {
            key,
            credentials,
            origin,
            count,
            reply,
        };
        self.enter(alloc, s, Entry { who, moment, act })?;
        Ok(reply)
    }

    /// Notes the addresses of a host.
    #[tactic(auto, using(crate::proofs::StepLemmas::before_then, crate::proofs::StepLemmas::enters_behind))]
    pub fn resolved(
        &mut self,
        alloc: Global,
        who: CallerNo,
        moment: Moment,
        key: PartitionKey,
        host: Octets,
        addresses: Addresses,
    ) -> Result<ResolvedReply, NoMem>
        requires caller { who.0 ≢ 0 }
        requires key { HasOnePart key }
        ensures ok { IfOk result (λ reply. Enters self.old who moment (act.Resolved key host addresses reply) self.new) }
        ensures err { OnErr result (IsAsBefore self.old self.new) }
    {
        let s = self.taken_at(alloc, moment)?;
        let reply = resolved_reply(&s, &addresses);
        let act = Act::Resolved {
            key,
            host,
            addresses,
            reply,
        };
        self.enter(alloc, s, Entry { who, moment, act })?;
        Ok(reply)
    }

    /// Says that the network changed.
    #[tactic(auto, using(crate::proofs::StepLemmas::before_then, crate::proofs::StepLemmas::enters_behind))]
    pub fn network_changed(
        &mut self,
        alloc: Global,
        who: CallerNo,
        moment: Moment,
    ) -> Result<(), NoMem>
        requires caller { who.0 ≢ 0 }
        ensures ok { OnOk result (Enters self.old who moment act.Network self.new) }
        ensures err { OnErr result (IsAsBefore self.old self.new) }
    {
        let s = self.taken_at(alloc, moment)?;
        let act = Act::Network;
        self.enter(alloc, s, Entry { who, moment, act })
    }

    /// Shuts the pool down.
    #[tactic(auto, using(crate::proofs::StepLemmas::before_then, crate::proofs::StepLemmas::enters_behind))]
    pub fn shutdown(
        &mut self,
        alloc: Global,
        who: CallerNo,
        moment: Moment,
    ) -> Result<ShutReply, NoMem>
        requires caller { who.0 ≢ 0 }
        ensures ok { IfOk result (λ reply. Enters self.old who moment (act.Shutdown reply) self.new) }
        ensures err { OnErr result (IsAsBefore self.old self.new) }
    {
        let s = self.taken_at(alloc, moment)?;
        let reply = shut_reply(&s);
        let act = Act::Shutdown { reply };
        self.enter(alloc, s, Entry { who, moment, act })?;
        Ok(reply)
    }
}
