// The calls of who submits, made again.
ghost use Rattle.std.specs.Prelude.{◌≢◌};

use crate::calls::Unmade;
use dispatch_core::Pool;
use model_values::{Act, Entry, Submission};
use net_base::{Addresses, ExchangeNo, Octets, Origin, PlainValue};
use partition_keys::PartitionKey;
use std::alloc::Global;

/// The exchange that a look is of where only its tick is known.
const LOOKED_AT: ExchangeNo = ExchangeNo(1);

/// The greatest urgency.
const MOST_URGENCY: u8 = 7;

/// Makes the call of an entry again, where it isn't a worker's. What only a pool does by itself is passed over.
pub(crate) fn call_as_channel(alloc: Global, pool: &mut Pool, e: &Entry) -> Result<(), Unmade>
    requires { e.now.who.0 ≢ 0 }
{
    match &e.act {
        Act::Submit { ask, .. } => submit_again(alloc, pool, e, ask),
        Act::Reprioritise {
            exchange,
            urgency,
            ..
        } => reprioritise_again(alloc, pool, e, *exchange, *urgency),
        Act::Preconnect {
            key,
            credentials,
            origin,
            count,
            ..
        } => preconnect_again(alloc, pool, e, key, *credentials, origin, *count),
        Act::Resolved {
            key,
            host,
            addresses,
            ..
        } => note_again(alloc, pool, e, key, host, addresses),
        act => call_freely(alloc, pool, e, act),
    }
}

/// Makes a call again that has no condition but that there is a caller.
fn call_freely(alloc: Global, pool: &mut Pool, e: &Entry, act: &Act) -> Result<(), Unmade>
    requires { e.now.who.0 ≢ 0 }
{
    match act {
        Act::Cancel { exchange, .. } => {
            pool.cancel(alloc, e.who, e.moment, *exchange)?;
        }
        Act::Network => pool.network_changed(alloc, e.who, e.moment)?,
        Act::Tick => {
            pool.look(alloc, e.who, e.moment, LOOKED_AT)?;
        }
        Act::Shutdown { .. } => {
            pool.shutdown(alloc, e.who, e.moment)?;
        }
        _ => {}
    }
    Ok(())
}

fn submit_again(alloc: Global, pool: &mut Pool, e: &Entry, ask: &Submission) -> Result<(), Unmade>
    requires { e.now.who.0 ≢ 0 }
{
    let ask = ask.copy(alloc)?;
    if ask.urgency > MOST_URGENCY || ask.key.second.is_some() {
        return Err(Unmade::Condition);
    }
    pool.submit(alloc, e.who, e.moment, ask)?;
    Ok(())
}

fn reprioritise_again(
    alloc: Global,
    pool: &mut Pool,
    e: &Entry,
    exchange: ExchangeNo,
    urgency: u8,
) -> Result<(), Unmade>
    requires { e.now.who.0 ≢ 0 }
{
    if urgency > MOST_URGENCY {
        return Err(Unmade::Condition);
    }
    pool.reprioritise(alloc, e.who, e.moment, exchange, urgency)?;
    Ok(())
}

fn preconnect_again(
    alloc: Global,
    pool: &mut Pool,
    e: &Entry,
    key: &PartitionKey,
    credentials: bool,
    origin: &Origin,
    count: u32,
) -> Result<(), Unmade>
    requires { e.now.who.0 ≢ 0 }
{
    let key = key.copy(alloc)?;
    if count == 0 || key.second.is_some() {
        return Err(Unmade::Condition);
    }
    let origin = origin.copy(alloc)?;
    pool.preconnect(alloc, e.who, e.moment, key, credentials, origin, count)?;
    Ok(())
}

/// Notes the addresses of a host again.
fn note_again(
    alloc: Global,
    pool: &mut Pool,
    e: &Entry,
    key: &PartitionKey,
    host: &Octets,
    addresses: &Addresses,
) -> Result<(), Unmade>
    requires { e.now.who.0 ≢ 0 }
{
    let key = key.copy(alloc)?;
    if key.second.is_some() {
        return Err(Unmade::Condition);
    }
    let host = host.copy(alloc)?;
    let addresses = addresses.copy(alloc)?;
    pool.resolved(alloc, e.who, e.moment, key, host, addresses)?;
    Ok(())
}
