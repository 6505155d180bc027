// Origins.
ghost use Rattle.std.specs.Prelude.{◌≡◌, IfOk};
ghost use Rattle.net_base.specs.Origins.{authority_text, default_port_of};

use plain_values::{NoMem, Octets, PlainValue};
use std::alloc::Global;

/// A scheme of the web.
#[derive(Clone, Copy, Debug, PartialEq, Eq)]
pub enum Scheme {
    Http,
    Https,
}

impl PlainValue for Scheme {
    fn copy(&self, _alloc: Global) -> Result<Scheme, NoMem> {
        Ok(*self)
    }

    fn same(&self, other: &Scheme) -> bool {
        *self == *other
    }
}

/// An origin (RFC 6454, section 4): scheme, host and port.
#[derive(Debug, Drop)]
pub struct Origin {
    pub scheme: Scheme,
    pub host: Octets,
    pub port: u16,
}

impl PlainValue for Origin {
    fn copy(&self, alloc: Global) -> Result<Origin, NoMem> {
        Ok(Origin {
            scheme: self.scheme,
            host: self.host.copy(alloc)?,
            port: self.port,
        })
    }

    fn same(&self, other: &Origin) -> bool {
        self.scheme == other.scheme && self.host.same(&other.host) && self.port == other.port
    }
}

/// The port that a scheme has where none is written: 80 for http, 443 for https (RFC 9110, section 4.2).
pub(crate) fn default_port(scheme: Scheme) -> u16
    ensures { result ≡ default_port_of scheme }
{
    match scheme {
        Scheme::Http => 80,
        Scheme::Https => 443,
    }
}

/// The authority of an origin (RFC 9110, sections 4.2.3 and 7.2): its host, and `:` and its port unless that is the
/// default of its scheme.
pub fn authority(alloc: Global, o: &Origin) -> Result<Octets, NoMem>
    ensures { IfOk result (λ text. text ≡ authority_text o.now) }
{
    let mut text = o.host.copy(alloc)?;
    if o.port != default_port(o.scheme) {
        let port = o.port;
        let digits = format!(in alloc; ":{port}")?;
        text.extend(alloc, digits.as_bytes())?;
    }
    Ok(text)
}
