// What the callers ask for.
ghost use Rattle.std.specs.Prelude.{◌≡◌, IfOk, None};

use super::*;

/// The limits of the pool.
pub(super) const LIMITS: Config = Config {
    per_group: 6,
    total: 32,
    streams: 100,
    background: 2,
    last_stream: 2147483647,
    submissions: 5000,
};

/// The page that asks.
pub(super) fn page(alloc: Global) -> Result<PartitionKey, NoMem>
    ensures { IfOk result (λ key. key.second ≡ None) }
{
    Ok(PartitionKey {
        site: Site::Tuple(Scheme::Https, Octets::build(alloc, b"top.test")?),
        second: None,
    })
}

/// A GET of `/` of this host, by http.
fn get(alloc: Global, host: &[u8]) -> Result<Request, NoMem> {
    Ok(Request {
        method: Octets::build(alloc, b"GET")?,
        origin: origin(alloc, host)?,
        path: Octets::build(alloc, b"/")?,
        fields: Fields::new(),
        body: Octets::new(),
    })
}

pub(super) fn origin(alloc: Global, host: &[u8]) -> Result<Origin, NoMem> {
    Ok(Origin {
        scheme: Scheme::Http,
        host: Octets::build(alloc, host)?,
        port: 80,
    })
}

/// The page's GET of a.test.
pub(super) fn ask(alloc: Global) -> Result<Submission, NoMem>
    ensures urgency { IfOk result (λ ask. ask.urgency ≡ 3) }
    ensures key { IfOk result (λ ask. ask.key.second ≡ None) }
{
    Ok(Submission {
        key: page(alloc)?,
        credentials: true,
        request: get(alloc, b"a.test")?,
        urgency: 3,
        background: false,
        deadline: None,
        probe: false,
    })
}

/// a.test itself.
pub(super) fn direct(alloc: Global) -> Result<Target, NoMem> {
    Ok(Target {
        host: Octets::build(alloc, b"a.test")?,
        port: 80,
        secure: false,
        via: Via::Direct,
    })
}

/// The identity of a connection that isn't secured.
pub(super) fn shows_nothing() -> Identity {
    Identity {
        names: Names::new(),
        secure: false,
        proto: Proto::H1,
        address: [0; 16],
    }
}
