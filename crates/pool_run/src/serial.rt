// The run of one exchange over one dialer.
ghost use Rattle.std.specs.Prelude.{◌≡◌, IfOk, IsSome, IsNone};
ghost use Rattle.pool_run.specs.Journal.{clear_direct};
ghost use Rattle.pool_run.specs.Serial.{RunsForm};
ghost use Rattle.pool_run.specs.Exchange.{RunsStaged, Says};

use crate::conversation::{Talk, converse};
use crate::journal::exchange_text;
use crate::report::{Report, Unbuilt};
use edge_traits::{Dialed, Dialer, Link, NetKind};
use h1_frames::write_request;
use net_base::{ConnNo, Identity, NoMem, Origin, PlainValue, Proto, Request, Target, Via};
use small_form::SmallForm;
use std::alloc::Global;

#[tactic(auto, using(crate::proofs::Forms::runs_form))]
/// Runs the exchange of the form by turns, over a dialer that wasn't staged yet.
pub(crate) fn run_form<D: Dialer>(
    alloc: Global,
    dialer: &mut D,
    form: &SmallForm,
) -> Result<Report, NoMem>
    requires { IsNone (D.seen dialer.old).staged }
    ensures { RunsForm (D.seen dialer.old) form.now result (D.seen dialer.new) }
{
    let text = write_request(alloc, &form.request)?;
    let target = target_of(alloc, &form.request.origin)?;
    dialer.stage(alloc, NetKind::Inner, &form.peers)?;
    run_staged(alloc, dialer, &form.request, &target, text.as_slice())
}

/// The target of an http origin itself.
pub(crate) fn target_of(alloc: Global, origin: &Origin) -> Result<Target, NoMem>
    ensures { IfOk result (λ target. target ≡ clear_direct origin.now) }
{
    Ok(Target {
        host: origin.host.copy(alloc)?,
        port: origin.port,
        secure: false,
        via: Via::Direct,
    })
}

/// What was said over a link.
#[derive(Debug, Drop)]
pub(crate) enum Said {
    Told(Talk),
    /// Nothing: the peer speaks HTTP/2.
    OtherProtocol,
}

/// Says the request's text to a peer that speaks HTTP/1.1.
fn say<L: Link>(
    alloc: Global,
    link: &mut L,
    identity: &Identity,
    text: &[u8],
) -> Result<Said, NoMem>
    ensures { Says (L.seen link.old) identity.now text.now result (L.seen link.new) }
{
    match identity.proto {
        Proto::H1 => match converse(alloc, link, text) {
            Ok(talk) => Ok(Said::Told(talk)),
            Err(NoMem) => Err(NoMem),
        },
        Proto::H2 => Ok(Said::OtherProtocol),
    }
}

/// Dials the target for connection 1, says the request's text there and retires the link.
fn run_staged<D: Dialer>(
    alloc: Global,
    dialer: &mut D,
    request: &Request,
    target: &Target,
    text: &[u8],
) -> Result<Report, NoMem>
    requires { IsSome (D.seen dialer.old).staged }
    ensures { RunsStaged (D.seen dialer.old) request.now target.now text.now result (D.seen dialer.new) }
{
    let conn = ConnNo(1);
    let (mut link, identity) = match dialer.dial(alloc, conn, target) {
        Dialed::Up(link, identity) => (link, identity),
        Dialed::Failed => return Ok(Report::Unbuilt(Unbuilt::Dial)),
        Dialed::NoMem => return Err(NoMem),
    };
    let said = say(alloc, &mut link, &identity, text);
    dialer.retire(conn, link);
    match said {
        Ok(Said::Told(Talk::Answered { round, response })) => {
            let sent = text.len() as u64;
            let journal = exchange_text(alloc, request, &identity, sent, round, &response)?;
            Ok(Report::Answered(journal))
        }
        Ok(Said::Told(Talk::Fault)) => Ok(Report::Unbuilt(Unbuilt::Fault)),
        Ok(Said::Told(Talk::End)) => Ok(Report::Unbuilt(Unbuilt::End)),
        Ok(Said::Told(Talk::Octets)) => Ok(Report::Unbuilt(Unbuilt::Octets)),
        Ok(Said::Told(Talk::Quiet)) => Ok(Report::Unbuilt(Unbuilt::Quiet)),
        Ok(Said::OtherProtocol) => Ok(Report::Unbuilt(Unbuilt::Identity)),
        Err(NoMem) => Err(NoMem),
    }
}
