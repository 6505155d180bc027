// What a caller may say as a worker, told by the state.
ghost use Rattle.std.specs.Prelude.{◌≡◌, ◌↔◌, true, IsOk, IsTrue, IfOk};
ghost use Rattle.model_histories.specs.Histories.{run};
ghost use Rattle.model_histories.specs.Legal.{MayCloseAt, MayReportAt};
ghost use Rattle.model_histories.specs.Port.{MayCloseBy, MayReportBy, MayWorkBy};
ghost use Rattle.model_histories.specs.Working.{MayWorkAt};

use crate::pool::Pool;
use crate::port::DirectPort;
use model_histories::{
    PoolPort, ends_as_state_says, may_end, may_tell, may_work, reports_as_state_says,
    works_as_state_says,
};
use model_values::Report;
use net_base::{CallerNo, ConnNo, EndCause, NoMem};
use pool_model::state_of;
use std::alloc::Global;

impl Pool {
    /// Whether this caller may ask for the orders of this connection.
    pub fn may_work(
        &self,
        alloc: Global,
        who: CallerNo,
        conn: ConnNo,
        sent: u64,
    ) -> Result<bool, NoMem>
        ensures may { IfOk result (λ b. IsTrue b ↔ MayWorkAt (run self.now.config self.now.history) who conn sent) }
        ensures spare { self.now.at_hand ≡ true → IsOk result }
    {
        match &self.state {
            Some(s) => Ok(may_work(s, who, conn, sent)),
            None => {
                let s = state_of(alloc, &self.config, self.history.as_slice())?;
                Ok(may_work(&s, who, conn, sent))
            }
        }
    }

    /// Whether this caller may report this.
    pub fn may_report(
        &self,
        alloc: Global,
        who: CallerNo,
        conn: ConnNo,
        sent: u64,
        r: &Report,
    ) -> Result<bool, NoMem>
        ensures may { IfOk result (λ b. IsTrue b ↔ MayReportAt (run self.now.config self.now.history) who conn sent r.now) }
        ensures spare { self.now.at_hand ≡ true → IsOk result }
    {
        match &self.state {
            Some(s) => Ok(may_tell(s, who, conn, sent, r)),
            None => {
                let s = state_of(alloc, &self.config, self.history.as_slice())?;
                Ok(may_tell(&s, who, conn, sent, r))
            }
        }
    }

    /// Whether this caller may give up its connection by this cause.
    pub fn may_close(
        &self,
        alloc: Global,
        who: CallerNo,
        conn: ConnNo,
        sent: u64,
        cause: EndCause,
    ) -> Result<bool, NoMem>
        ensures may { IfOk result (λ b. IsTrue b ↔ MayCloseAt (run self.now.config self.now.history) who conn sent cause) }
        ensures spare { self.now.at_hand ≡ true → IsOk result }
    {
        match &self.state {
            Some(s) => Ok(may_end(s, who, conn, sent, cause)),
            None => {
                let s = state_of(alloc, &self.config, self.history.as_slice())?;
                Ok(may_end(&s, who, conn, sent, cause))
            }
        }
    }
}

impl<'a> DirectPort<'a> {
    /// Whether the caller may ask for the orders of this connection.
    pub fn may_work(&self, alloc: Global, conn: ConnNo, sent: u64) -> Result<bool, NoMem>
        ensures { IfOk result (λ b. IsTrue b ↔ MayWorkBy (⟦<DirectPort<'a> as PoolPort>⟧.port self.now) conn sent) }
    {
        let _history = self.pool.history();
        works_as_state_says();
        self.pool.may_work(alloc, self.who, conn, sent)
    }

    /// Whether the caller may report this.
    pub fn may_report(
        &self,
        alloc: Global,
        conn: ConnNo,
        sent: u64,
        r: &Report,
    ) -> Result<bool, NoMem>
        ensures { IfOk result (λ b. IsTrue b ↔ MayReportBy (⟦<DirectPort<'a> as PoolPort>⟧.port self.now) conn sent r.now) }
    {
        let _history = self.pool.history();
        reports_as_state_says();
        self.pool.may_report(alloc, self.who, conn, sent, r)
    }

    /// Whether the caller may give up its connection by this cause.
    pub fn may_close(
        &self,
        alloc: Global,
        conn: ConnNo,
        sent: u64,
        cause: EndCause,
    ) -> Result<bool, NoMem>
        ensures { IfOk result (λ b. IsTrue b ↔ MayCloseBy (⟦<DirectPort<'a> as PoolPort>⟧.port self.now) conn sent cause) }
    {
        let _history = self.pool.history();
        ends_as_state_says();
        self.pool.may_close(alloc, self.who, conn, sent, cause)
    }
}
