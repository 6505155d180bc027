// The pool: its history, and beside it the state that this leaves.
ghost use Rattle.std.specs.Prelude.{◌≡◌, ◌≢◌, ◌≤◌, [], true, IfOk, IsOk, OnOk, OnErr, length};
ghost use Rattle.dispatch_core.specs.Ranges.{AreWithinRanges};
ghost use Rattle.model_histories.specs.Histories.{IsHistory, run};
ghost use Rattle.model_histories.specs.Legal.{IsReply};
ghost use Rattle.model_steps.specs.After as after;
ghost use Rattle.model_values.specs.Limits.{most_judged};

use crate::follow::followed;
use model_steps::note;
use model_values::{AbstractPool, Config, Entry, Rows};
use net_base::{Moment, NoMem};
use pool_model::{has_room_for_more, open_pool, state_of};
use std::alloc::Global;
use std::marker::Model;

/// A connection pool. Contracts see its limits, its history, and whether it has at hand the state that its history leaves: it
/// has after each call that succeeds. Where a call wants memory, the history is as before, and the state is made anew from it
/// by the next call.
#[derive(Drop)]
pub struct Pool {
    pub(crate) config: Config,
    pub(crate) history: Rows<Entry>,
    pub(crate) state: Option<AbstractPool>,
}

impl Model for Pool {
    ghost use Rattle.std.specs.Prelude.{is_some};
    ghost use Rattle.dispatch_core.specs.Pools.{PoolView, Stands};

    ghost Value = { PoolView };

    ghost view = { λ p. record { config = p.config; history = p.history; at_hand = is_some p.state } };

    ghost invariant = { λ p. Stands p.config p.history p.state };
}

impl Pool {
    ghost use Rattle.dispatch_core.specs.Pools.{Enters, IsAsBefore, Rests};

    /// A pool that nothing was asked of, with limits within their ranges.
    pub fn new(alloc: Global, config: Config) -> Result<Pool, NoMem>
        requires { AreWithinRanges config }
        ensures { IsOk result × IfOk result (λ p. p ≡ record { config = config; history = []; at_hand = true }) }
    {
        Ok(Pool {
            config,
            history: Rows::new(alloc),
            state: Some(open_pool(alloc, &config)),
        })
    }

    /// The history so far: entries that are one under the pool's limits, which are within their ranges.
    pub fn history(&self) -> &[Entry]
        ensures value { result.now ≡ self.now.history }
        ensures history { IsHistory self.now.config self.now.history }
        ensures ranges { AreWithinRanges self.now.config }
    {
        self.history.as_slice()
    }

    /// The state now, which is then no longer at hand.
    pub(crate) fn taken(&mut self, alloc: Global) -> Result<AbstractPool, NoMem>
        ensures before { IsAsBefore self.old self.new }
        ensures state { IfOk result (λ s. s ≡ run self.old.config self.old.history) }
        ensures at_hand { self.old.at_hand ≡ true → IsOk result }
    {
        match self.state.take() {
            Some(s) => Ok(s),
            None => state_of(alloc, &self.config, self.history.as_slice()),
        }
    }

    /// The state is at hand again.
    pub(crate) fn keep(&mut self, s: AbstractPool)
        requires { s ≡ run self.old.config self.old.history }
        ensures { Rests self.old self.new }
    {
        self.state = Some(s);
    }

    /// The state with a moment counted.
    #[tactic(auto, unfolding(model_steps::specs::After::noted))]
    pub(crate) fn taken_at(&mut self, alloc: Global, moment: Moment) -> Result<AbstractPool, NoMem>
        ensures before { IsAsBefore self.old self.new }
        ensures state { IfOk result (λ s. s ≡ after.noted (run self.old.config self.old.history) moment) }
        ensures few { IfOk result (λ s. length s.connections ≤ most_judged) }
    {
        let mut s = self.taken(alloc)?;
        if !has_room_for_more(&s) {
            return Err(NoMem);
        }
        note(&mut s, moment);
        Ok(s)
    }

    /// Adds the caller's entry, and what the pool does by itself behind it. The state is the one at which its reply is
    /// given.
    pub(crate) fn enter(&mut self, alloc: Global, s: AbstractPool, e: Entry) -> Result<(), NoMem>
        requires caller { e.who.0 ≢ 0 }
        requires noted { s ≡ after.noted (run self.old.config self.old.history) e.moment }
        requires reply { IsReply s e.who e.act }
        ensures ok { OnOk result (Enters self.old e.who e.moment e.act self.new) }
        ensures err { OnErr result (IsAsBefore self.old self.new) }
    {
        let length = self.history.len();
        match followed(alloc, &self.config, &mut self.history, s, e) {
            Ok(s) => {
                self.state = Some(s);
                Ok(())
            }
            Err(_) => {
                self.history.items.truncate(length);
                Err(NoMem)
            }
        }
    }
}
