// How far an exchange and a connection are.
ghost use Rattle.std.specs.Prelude.{◌≡◌};
ghost use Rattle.model_authority.specs.Statuses as spec;

use model_values::{Connection, Phase, Status};
use net_base::{ConnNo, Identity, Proto, StreamNo};

/// Whether it waits for a connection.
pub fn is_waiting(status: &Status) -> bool
    ensures { result ≡ spec.is_waiting status.now }
{
    match status {
        Status::Waiting => true,
        Status::Leased { .. } => false,
        Status::Ended(_) => false,
    }
}

/// Whether it has a lease.
pub fn is_leased(status: &Status) -> bool
    ensures { result ≡ spec.is_leased status.now }
{
    match status {
        Status::Waiting => false,
        Status::Leased { .. } => true,
        Status::Ended(_) => false,
    }
}

/// Whether it has ended.
pub fn has_ended(status: &Status) -> bool
    ensures { result ≡ spec.has_ended status.now }
{
    match status {
        Status::Waiting => false,
        Status::Leased { .. } => false,
        Status::Ended(_) => true,
    }
}

/// Whether it has a lease on this connection.
pub fn is_on(c: ConnNo, status: &Status) -> bool
    ensures { result ≡ spec.is_on c status.now }
{
    match status {
        Status::Waiting => false,
        Status::Leased { conn, .. } => conn.0 == c.0,
        Status::Ended(_) => false,
    }
}

/// Whether it has the lease on this stream of this connection.
pub fn is_at(c: ConnNo, r: StreamNo, status: &Status) -> bool
    ensures { result ≡ spec.is_at c r status.now }
{
    match status {
        Status::Waiting => false,
        Status::Leased { conn, stream, .. } => conn.0 == c.0 && stream.0 == r.0,
        Status::Ended(_) => false,
    }
}

/// Whether it has the lease on this stream of this connection, and its start isn't handed yet.
pub fn is_unsent_at(c: ConnNo, r: StreamNo, status: &Status) -> bool
    ensures { result ≡ spec.is_unsent_at c r status.now }
{
    match status {
        Status::Waiting => false,
        Status::Leased {
            conn,
            stream,
            handed,
            ..
        } => conn.0 == c.0 && stream.0 == r.0 && !*handed,
        Status::Ended(_) => false,
    }
}

/// Whether no worker has the connection yet.
pub fn is_wanted(phase: Phase) -> bool
    ensures { result ≡ spec.is_wanted phase }
{
    phase == Phase::Wanted
}

/// Whether the connection is dialed.
pub fn is_dialing(phase: Phase) -> bool
    ensures { result ≡ spec.is_dialing phase }
{
    phase == Phase::Dialing
}

/// Whether the connection is open.
pub fn is_open(phase: Phase) -> bool
    ensures { result ≡ spec.is_open phase }
{
    phase == Phase::Open
}

/// Whether the connection takes no further exchange.
pub fn is_draining(phase: Phase) -> bool
    ensures { result ≡ spec.is_draining phase }
{
    phase == Phase::Draining
}

/// Whether the connection is told to close.
pub fn is_closing(phase: Phase) -> bool
    ensures { result ≡ spec.is_closing phase }
{
    phase == Phase::Closing
}

/// Whether the connection is gone.
pub fn is_gone(phase: Phase) -> bool
    ensures { result ≡ spec.is_gone phase }
{
    phase == Phase::Gone
}

/// Whether the connection is open, draining or closing, which only one that was opened becomes.
pub fn is_busy(phase: Phase) -> bool
    ensures { result ≡ spec.is_busy phase }
{
    is_open(phase) || is_draining(phase) || is_closing(phase)
}

/// Whether the connection isn't up yet.
pub fn is_opening(phase: Phase) -> bool
    ensures { result ≡ spec.is_opening phase }
{
    is_wanted(phase) || is_dialing(phase)
}

/// Whether it is HTTP/2.
pub fn is_h2(proto: Proto) -> bool
    ensures { result ≡ spec.is_h2 proto }
{
    proto == Proto::H2
}

/// Whether the identity was shown and speaks HTTP/2.
fn shows_h2(identity: &Option<Identity>) -> bool
    ensures { result ≡ spec.shows (λ id. spec.is_h2 id.proto) identity.now }
{
    match identity {
        Some(id) => is_h2(id.proto),
        None => false,
    }
}

/// Whether the connection's other side speaks HTTP/2.
pub fn speaks_h2(c: &Connection) -> bool
    ensures { result ≡ spec.speaks_h2 c.now }
{
    shows_h2(&c.identity)
}
