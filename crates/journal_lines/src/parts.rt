// The words of submissions, identities, responses and orders.
ghost use Rattle.std.specs.Prelude.{◌≡◌, [], ◌∷◌, ◌++◌, OnOk};
ghost use Rattle.std.specs.Fmt.{decimal};
ghost use Rattle.std.specs.List.{flat_map};
ghost use Rattle.partition_keys.specs.Sites.{site_text};
ghost use Rattle.journal_lines.specs.Lines as spec;
ghost use Rattle.journal_words.specs.Words as words;
ghost use Rattle.journal_words.specs.Words.{spaced_words};

use journal_words::{
    credentials_text, deadline_text, fields_text, hex_text, list_text, octets_text, origin_text,
    proto_text, put, put_number, security_text,
};
use model_values::{OrderMark, Submission};
use net_base::{Identity, NoMem, Octets, Request, Response};
use partition_keys::write_site;
use std::alloc::Global;

/// METHOD ORIGIN PATH FIELDS BODY.
fn put_request(alloc: Global, line: &mut Octets, r: &Request) -> Result<(), NoMem>
    ensures { OnOk result (line.new ≡ line.old ++ spaced_words (spec.request_words r.now)) }
{
    put(alloc, line, r.method.as_slice())?;
    let origin = origin_text(alloc, &r.origin)?;
    put(alloc, line, origin.as_slice())?;
    put(alloc, line, r.path.as_slice())?;
    let fields = fields_text(alloc, &r.fields)?;
    put(alloc, line, fields.as_slice())?;
    let body = octets_text(alloc, r.body.as_slice())?;
    put(alloc, line, body.as_slice())
}

/// What stands before the request: SITE CRED URGENCY, `fore` or `back`, DEADLINE, `plain` or `probe`.
fn put_before_request(alloc: Global, line: &mut Octets, s: &Submission) -> Result<(), NoMem>
    ensures { OnOk result (line.new ≡ line.old ++ spaced_words (site_text s.now.key.site ∷ words.credentials_text s.now.credentials ∷ decimal s.now.urgency ∷ spec.background_text s.now.background ∷ words.deadline_text s.now.deadline ∷ spec.probe_text s.now.probe ∷ [])) }
{
    let site = write_site(alloc, &s.key.site)?;
    put(alloc, line, site.as_slice())?;
    put(alloc, line, credentials_text(s.credentials).as_bytes())?;
    put_number(alloc, line, u64::from(s.urgency))?;
    put(alloc, line, background_text(s.background).as_bytes())?;
    let deadline = deadline_text(alloc, s.deadline)?;
    put(alloc, line, deadline.as_slice())?;
    put(alloc, line, probe_text(s.probe).as_bytes())
}

fn background_text(background: bool) -> &'static str
    ensures { result.now ≡ spec.background_text background }
{
    if background { "back" } else { "fore" }
}

fn probe_text(probe: bool) -> &'static str
    ensures { result.now ≡ spec.probe_text probe }
{
    if probe { "probe" } else { "plain" }
}

pub(crate) fn put_submission(alloc: Global, line: &mut Octets, s: &Submission) -> Result<(), NoMem>
    ensures { OnOk result (line.new ≡ line.old ++ spaced_words (spec.submission_words s.now)) }
{
    put_before_request(alloc, line, s)?;
    put_request(alloc, line, &s.request)
}

/// STATUS FIELDS BODY TRAILERS.
pub(crate) fn put_response(alloc: Global, line: &mut Octets, r: &Response) -> Result<(), NoMem>
    ensures { OnOk result (line.new ≡ line.old ++ spaced_words (spec.response_words r.now)) }
{
    put_number(alloc, line, u64::from(r.status))?;
    let fields = fields_text(alloc, &r.fields)?;
    put(alloc, line, fields.as_slice())?;
    let body = octets_text(alloc, r.body.as_slice())?;
    put(alloc, line, body.as_slice())?;
    let trailers = fields_text(alloc, &r.trailers)?;
    put(alloc, line, trailers.as_slice())
}

/// `clear` or `secure`, PROTO ADDRESS NAMES.
pub(crate) fn put_identity(alloc: Global, line: &mut Octets, i: &Identity) -> Result<(), NoMem>
    ensures { OnOk result (line.new ≡ line.old ++ spaced_words (spec.identity_words i.now)) }
{
    put(alloc, line, security_text(i.secure).as_bytes())?;
    put(alloc, line, proto_text(i.proto).as_bytes())?;
    let address = hex_text(alloc, &i.address)?;
    put(alloc, line, address.as_slice())?;
    let names = list_text(alloc, i.names.as_slice())?;
    put(alloc, line, names.as_slice())
}

fn put_order(alloc: Global, line: &mut Octets, mark: OrderMark) -> Result<(), NoMem>
    ensures { OnOk result (line.new ≡ line.old ++ spaced_words (spec.order_words mark)) }
{
    match mark {
        OrderMark::Start { exchange, stream } => {
            put(alloc, line, b"start")?;
            put_number(alloc, line, exchange.0)?;
            put_number(alloc, line, u64::from(stream.0))
        }
        OrderMark::Reset(stream) => {
            put(alloc, line, b"reset")?;
            put_number(alloc, line, u64::from(stream.0))
        }
        OrderMark::Close => put(alloc, line, b"close"),
    }
}

pub(crate) fn put_order_marks(
    alloc: Global,
    line: &mut Octets,
    marks: &[OrderMark],
) -> Result<(), NoMem>
    ensures { OnOk result (line.new ≡ line.old ++ spaced_words (flat_map spec.order_words marks.now)) }
{
    for mark in marks {
        put_order(alloc, line, *mark)?;
    }
    Ok(())
}
