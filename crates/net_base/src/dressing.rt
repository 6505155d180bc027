// How a request is dressed for the target that its connection leads to.
ghost use Rattle.std.specs.Prelude.{◌≡◌, IfOk};
ghost use Rattle.net_base.specs.Dressing as spec;
ghost use Rattle.net_base.specs.Dressing.{dressed_for};

use crate::field::Field;
use crate::request::Request;
use crate::target::{Target, Via};
use plain_values::{NoMem, Octets, PlainValue};
use std::alloc::Global;

/// The request as it is sent on a connection to this target: where the target is an alternative service, the field
/// `alt-used` with its host, `:` and its port is added as the last one (RFC 7838, section 5).
pub fn dressed(alloc: Global, r: &Request, t: &Target) -> Result<Request, NoMem>
    ensures { IfOk result (λ x. x ≡ dressed_for r.now t.now) }
{
    let mut request = r.copy(alloc)?;
    match t.via {
        Via::Direct => Ok(request),
        Via::Alternative(_) => {
            request.fields.push(alloc, alt_used(alloc, t)?)?;
            Ok(request)
        }
    }
}

fn alt_used(alloc: Global, t: &Target) -> Result<Field, NoMem>
    ensures { IfOk result (λ field. field ≡ spec.alt_used t.now) }
{
    Ok(Field {
        name: Octets::build(alloc, b"alt-used")?,
        value: host_and_port(alloc, t)?,
    })
}

fn host_and_port(alloc: Global, t: &Target) -> Result<Octets, NoMem>
    ensures { IfOk result (λ text. text ≡ spec.host_and_port t.now) }
{
    let mut text = t.host.copy(alloc)?;
    let port = t.port;
    let digits = format!(in alloc; ":{port}")?;
    text.extend(alloc, digits.as_bytes())?;
    Ok(text)
}
