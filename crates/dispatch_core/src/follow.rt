// A call's entry, and what the pool does by itself behind it.
ghost use Rattle.std.specs.Prelude.{◌≡◌, ◌≢◌, ◌++◌, ◌∷◌, [], IfOk, OnOk};
ghost use Rattle.dispatch_core.specs.Steps.{Follows, Reaches, Extends};
ghost use Rattle.model_histories.specs.Histories.{IsHistory, run};
ghost use Rattle.model_histories.specs.Legal.{IsReply};
ghost use Rattle.model_histories.specs.Looks.{IsLook};
ghost use Rattle.model_steps.specs.After as after;

use crate::answers::look_at;
use crate::settle::settle;
use model_steps::after_act;
use model_values::{AbstractPool, Config, Entry, Look, Rows};
use net_base::{ExchangeNo, NoMem};
use std::alloc::Global;

/// The call's entry with its state. The state before is the one at which its reply is given.
fn called(
    alloc: Global,
    config: &Config,
    history: &mut Rows<Entry>,
    s: &mut AbstractPool,
    e: Entry,
) -> Result<(), NoMem>
    requires history { IsHistory config.now history.old }
    requires caller { e.who.0 ≢ 0 }
    requires noted { s.old ≡ after.noted (run config.now history.old) e.moment }
    requires reply { IsReply s.old e.who e.act }
    ensures reaches { OnOk result (Reaches config.now history.new s.new) }
    ensures adds { OnOk result (history.new ≡ history.old ++ e ∷ []) }
    ensures extends { Extends history.old history.new }
{
    after_act(alloc, s, e.who, &e.act)?;
    history.push(e)
}

/// The call's entry, and what the pool does by itself behind it.
pub(crate) fn followed(
    alloc: Global,
    config: &Config,
    history: &mut Rows<Entry>,
    mut s: AbstractPool,
    e: Entry,
) -> Result<AbstractPool, NoMem>
    requires history { IsHistory config.now history.old }
    requires caller { e.who.0 ≢ 0 }
    requires noted { s ≡ after.noted (run config.now history.old) e.moment }
    requires reply { IsReply s e.who e.act }
    ensures follows { IfOk result (λ t. Follows config.now history.old e history.new t) }
    ensures extends { Extends history.old history.new }
{
    called(alloc, config, history, &mut s, e)?;
    settle(alloc, config, history, &mut s)?;
    Ok(s)
}

/// A look behind its tick.
#[derive(Drop)]
pub(crate) struct Looked {
    pub s: AbstractPool,
    pub reply: Look,
}

/// A tick, what the pool does by itself behind it, and what a caller sees of an exchange then.
pub(crate) fn looked_at(
    alloc: Global,
    config: &Config,
    history: &mut Rows<Entry>,
    s: AbstractPool,
    e: Entry,
    no: ExchangeNo,
) -> Result<Looked, NoMem>
    requires history { IsHistory config.now history.old }
    requires caller { e.who.0 ≢ 0 }
    requires noted { s ≡ after.noted (run config.now history.old) e.moment }
    requires reply { IsReply s e.who e.act }
    ensures follows { IfOk result (λ l. Follows config.now history.old e history.new l.s) }
    ensures looks { IfOk result (λ l. IsLook (run config.now history.new) e.who no l.reply) }
    ensures extends { Extends history.old history.new }
{
    let who = e.who;
    let s = followed(alloc, config, history, s, e)?;
    let reply = look_at(alloc, &s, who, no)?;
    Ok(Looked { s, reply })
}
