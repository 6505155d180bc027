// What the pool does by itself behind an entry.
ghost use Rattle.std.specs.Prelude.{◌≡◌, ◌≤◌, ◌++◌, ◌∷◌, [], OnOk, length};
ghost use Rattle.dispatch_core.specs.Steps.{Goes, Reaches, Settles, Extends};
ghost use Rattle.model_histories.specs.Histories.{MayStand};
ghost use Rattle.model_settling.specs.Due.{IsNext};
ghost use Rattle.model_settling.specs.Settling.{IsSettled};

use model_settling::{Due, due_act, next_due};
use model_values::{AbstractPool, Config, Entry, Rows};
use net_base::{CallerNo, NoMem};
use pool_model::{go_on, has_room_for_more};
use std::alloc::Global;

/// One more entry, which may stand here.
#[tactic(auto, using(crate::proofs::StepLemmas::extends_none, crate::proofs::StepLemmas::extends_by))]
fn step(
    alloc: Global,
    config: &Config,
    history: &mut Rows<Entry>,
    s: &mut AbstractPool,
    e: Entry,
) -> Result<(), NoMem>
    requires reaches { Reaches config.now history.old s.old }
    requires stands { MayStand s.old e }
    ensures reaches { OnOk result (Reaches config.now history.new s.new) }
    ensures adds { OnOk result (history.new ≡ history.old ++ e ∷ []) }
    ensures extends { Extends history.old history.new }
{
    go_on(alloc, s, &e)?;
    history.push(e)
}

/// What is due.
#[tactic(auto, using(crate::proofs::StepLemmas::goes_none, crate::proofs::StepLemmas::goes_one, crate::proofs::StepLemmas::due_stands, crate::proofs::StepLemmas::extends_none))]
fn own_step(
    alloc: Global,
    config: &Config,
    history: &mut Rows<Entry>,
    s: &mut AbstractPool,
    d: Due,
) -> Result<(), NoMem>
    requires reaches { Reaches config.now history.old s.old }
    requires next { IsNext s.old d }
    ensures goes { OnOk result (Goes config.now history.old history.new s.new) }
    ensures extends { Extends history.old history.new }
{
    match due_act(alloc, s, d)? {
        None => Ok(()),
        Some(act) => {
            let own = Entry {
                who: CallerNo(0),
                moment: s.latest,
                act,
            };
            step(alloc, config, history, s, own)
        }
    }
}

/// All that the pool does by itself.
pub(crate) fn settle(
    alloc: Global,
    config: &Config,
    history: &mut Rows<Entry>,
    s: &mut AbstractPool,
) -> Result<(), NoMem>
    requires { Reaches config.now history.old s.old }
    ensures settles { OnOk result (Settles config.now history.old history.new s.new) }
    ensures extends { Extends history.old history.new }
{
    for _ in 0..u64::MAX {
        if !has_room_for_more(s) {
            return Err(NoMem);
        }
        match next_due(s) {
            None => return Ok(()),
            Some(d) => own_step(alloc, config, history, s, d)?,
        }
    }
    Err(NoMem)
}
