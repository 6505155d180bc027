// The first place that keeps a list of entries from being a history.
ghost use Rattle.std.specs.Prelude.{◌≡◌, ◌↔◌, ◌≤◌, ◌<◌, ◌+◌, ◌^◌, IsTrue, IfOk, MatchOption, length};
ghost use Rattle.std.specs.Bool.{OnTrue};
ghost use Rattle.model_steps.specs.After as after;
ghost use Rattle.model_histories.specs.Histories as spec;
ghost use Rattle.model_settling.specs.Settling.{IsSettled};
ghost use Rattle.model_values.specs.Limits.{most_judged};

use model_histories::noted;
use model_settling::is_settled;
use model_steps::after_act;
use model_values::{AbstractPool, Config, Entry, History, MOST_JUDGED, Rows};
use net_base::{Moment, NoMem};
use std::alloc::Global;

/// The pool before its first entry.
pub fn open_pool(alloc: Global, config: &Config) -> AbstractPool
    ensures { result ≡ spec.opening config.now }
{
    AbstractPool {
        config: *config,
        exchanges: Rows::new(alloc),
        connections: Rows::new(alloc),
        alternatives: Rows::new(alloc),
        addresses: Rows::new(alloc),
        protos: Rows::new(alloc),
        shutdown: None,
        latest: Moment(0),
        entries: 0,
    }
}

/// Whether the pool's numbers still fit: one more connection has a number of 32 bits, and one more entry one of 64.
pub fn has_room_for_more(s: &AbstractPool) -> bool
    ensures { IsTrue result ↔ ((length s.now.connections ≤ most_judged) × (s.now.entries + 1 < 2 ^ 64)) }
{
    s.connections.len() <= MOST_JUDGED && s.entries < u64::MAX
}

/// Whether the entry may stand here. Where it may, the state becomes the one that it leaves.
#[tactic(auto, unfolding(model_steps::specs::After::after))]
fn step(alloc: Global, s: &mut AbstractPool, e: &Entry) -> Result<bool, NoMem>
    ensures stands { IfOk result (λ b. IsTrue b ↔ spec.MayStand s.old e.now) }
    ensures state { IfOk result (λ b. OnTrue b (s.new ≡ after.after s.old e.now)) }
{
    if !has_room_for_more(s) {
        return Err(NoMem);
    }
    let stands = noted(s, e);
    if stands {
        after_act(alloc, s, e.who, &e.act)?;
    }
    Ok(stands)
}

/// Whether the pool has nothing to do by itself at the end.
fn ends_settled(s: &AbstractPool) -> Result<bool, NoMem>
    ensures { IfOk result (λ b. IsTrue b ↔ IsSettled s.now) }
{
    if !has_room_for_more(s) {
        return Err(NoMem);
    }
    Ok(is_settled(s))
}

/// The first place that keeps these entries from being a history.
fn first_bad_of(alloc: Global, config: &Config, entries: &[Entry]) -> Result<Option<u64>, NoMem>
    ensures { IfOk result (λ place. MatchOption place (spec.IsHistory config.now entries.now) (λ p. spec.IsFirstBad config.now entries.now p)) }
{
    let mut s = open_pool(alloc, config);
    let mut place = 1u64;
    for e in entries {
        if !step(alloc, &mut s, e)? {
            return Ok(Some(place));
        }
        place += 1;
    }
    if ends_settled(&s)? {
        Ok(None)
    } else {
        Ok(Some(place))
    }
}

/// The first place, counted from 1, that keeps the entries from being a history of a pool with these limits: the place
/// of the first entry that may not stand where it stands, or the place behind the last where the pool has something to
/// do by itself there. Nothing where they are a history.
///
/// It is plain and slow, and what other bodies are compared with. `NoMem` where there is no memory, or where the
/// entries or the connections are more than their numbers.
pub fn first_bad(alloc: Global, config: &Config, history: &History) -> Result<Option<u64>, NoMem>
    ensures { IfOk result (λ place. MatchOption place (spec.IsHistory config.now history.now) (λ p. spec.IsFirstBad config.now history.now p)) }
{
    first_bad_of(alloc, config, history.as_slice())
}
