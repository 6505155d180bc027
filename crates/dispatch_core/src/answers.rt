// The answers that no entry carries.
ghost use Rattle.std.specs.Prelude.{◌≡◌, ◌↔◌, ◌≤◌, None, Some, IsTrue, IsSomeAnd, IsOk, IfOk, length};
ghost use Rattle.dispatch_core.specs.Pools.{HasItsEnd, IsRest};
ghost use Rattle.model_authority.specs.Lists as lists;
ghost use Rattle.model_histories.specs.Looks.{IsLook, IsLateAt};
ghost use Rattle.model_values.specs.Limits.{most_judged};
ghost use Rattle.model_histories.specs.Replies.{IsDial, dial_of};

use model_authority::numbered;
use model_histories::{is_late, own_exchange};
use model_laws::longer::late_ignores_entries;
use model_values::{AbstractPool, Look, OrderMarks, Seek, Status};
use net_base::{CallerNo, ConnNo, ExchangeNo, Moment, NoMem, PlainValue, Target};
use std::alloc::Global;

/// What a caller sees of an exchange.
pub(crate) fn look_at(
    alloc: Global,
    s: &AbstractPool,
    who: CallerNo,
    no: ExchangeNo,
) -> Result<Look, NoMem>
    ensures looks { IfOk result (λ reply. IsLook s.now who no reply) }
    ensures spare { (¬ HasItsEnd s.now who no) → IsOk result }
{
    match own_exchange(s, who, no) {
        None => Ok(Look::Unknown),
        Some(e) => match &e.status {
            Status::Waiting => Ok(Look::Pending(s.entries)),
            Status::Leased { .. } => Ok(Look::Pending(s.entries)),
            Status::Ended(how) => Ok(Look::Ended(how.copy(alloc)?)),
        },
    }
}

/// Whether something is due once the moment is counted. The state stays as it is.
pub(crate) fn is_late_at(s: &mut AbstractPool, moment: Moment) -> bool
    requires few { length s.old.connections ≤ most_judged }
    ensures same { s.new ≡ s.old }
    ensures late { IsTrue result ↔ IsLateAt s.old moment }
{
    late_ignores_entries();
    let latest = s.latest;
    s.latest = Moment(latest.0.max(moment.0));
    let late = is_late(s);
    s.latest = latest;
    late
}

/// The answer of a seek where no connection is wanted.
pub(crate) fn rest_of(s: &AbstractPool) -> Seek
    requires { dial_of s.now ≡ None }
    ensures { IsRest s.now result }
{
    match s.shutdown {
        Some(place) => Seek::Stop(place),
        None => Seek::Nothing(s.entries),
    }
}

/// The connection to dial, and where it goes.
#[derive(Drop)]
pub(crate) struct Wanted {
    pub conn: ConnNo,
    pub target: Target,
}

/// The connection of this number, which is to be dialed.
pub(crate) fn dialed(alloc: Global, s: &AbstractPool, number: u64) -> Result<Wanted, NoMem>
    requires next { dial_of s.now ≡ Some number }
    ensures { IfOk result (λ d. IsDial s.now d.conn d.target) }
{
    if number > 4294967295 {
        return Err(NoMem);
    }
    match numbered(number, s.connections.as_slice()) {
        None => Err(NoMem),
        Some(c) => Ok(Wanted {
            conn: ConnNo(number as u32),
            target: c.group.target.copy(alloc)?,
        }),
    }
}

/// A copy of the orders of this connection that are pending.
pub(crate) fn pending(alloc: Global, s: &AbstractPool, conn: ConnNo) -> Result<OrderMarks, NoMem>
    ensures { IfOk result (λ marks. IsSomeAnd (lists.numbered conn.0 s.now.connections) (λ c. marks ≡ c.orders)) }
{
    match numbered(u64::from(conn.0), s.connections.as_slice()) {
        None => Err(NoMem),
        Some(c) => c.orders.copy(alloc),
    }
}
