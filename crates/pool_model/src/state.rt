// The state that entries leave.
ghost use Rattle.std.specs.Prelude.{◌≡◌, IfOk, OnOk};
ghost use Rattle.model_histories.specs.Histories.{run};
ghost use Rattle.model_steps.specs.After as after;

use crate::judge::{has_room_for_more, open_pool};
use model_steps::{after_act, note};
use model_values::{AbstractPool, Config, Entry};
use net_base::NoMem;
use std::alloc::Global;

/// The state becomes the one that the entry leaves. `NoMem` where there is no memory, or where the entries or the connections
/// are more than their numbers.
#[tactic(auto, unfolding(model_steps::specs::After::after))]
pub fn go_on(alloc: Global, s: &mut AbstractPool, e: &Entry) -> Result<(), NoMem>
    ensures { OnOk result (s.new ≡ after.after s.old e.now) }
{
    if !has_room_for_more(s) {
        return Err(NoMem);
    }
    note(s, e.moment);
    after_act(alloc, s, e.who, &e.act)
}

/// The state that the entries leave, one after another, of a pool with these limits.
pub fn state_of(alloc: Global, config: &Config, entries: &[Entry]) -> Result<AbstractPool, NoMem>
    ensures { IfOk result (λ s. s ≡ run config.now entries.now) }
{
    let mut s = open_pool(alloc, config);
    for e in entries {
        go_on(alloc, &mut s, e)?;
    }
    Ok(s)
}
