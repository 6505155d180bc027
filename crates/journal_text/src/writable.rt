// Which entries have a line that is read back as them.
ghost use Rattle.std.specs.Prelude.{◌≡◌, ◌↔◌, ◌==◌, ◌||◌, not, nat_lt, IsTrue, IfOk};
ghost use Rattle.std.specs.List.{list_all};
ghost use Rattle.net_base.specs.Identities as identities;
ghost use Rattle.net_base.specs.Requests as requests;
ghost use Rattle.partition_keys.specs.Sites.{IsSite};
ghost use Rattle.journal_words.specs.Writable as words;
ghost use Rattle.journal_lines.specs.Writable as spec;

use model_values::{Act, Entry, Report};
use net_base::{
    Field, Fields, MOST_NAMES, Names, NoMem, PlainValue, Request, Response, is_name, is_token_text,
};
use partition_keys::{
    AltUpdate, Alternative, Alternatives, PartitionKey, Site, SiteFault, read_site, write_site,
};
use std::alloc::Global;

/// Whether the entry has a line that is read back as it.
pub fn is_writable(alloc: Global, e: &Entry) -> Result<bool, NoMem>
    ensures { IfOk result (λ is. IsTrue is ↔ spec.IsWritable e.now) }
{
    if !is_writable_act(&e.act) {
        return Ok(false);
    }
    has_writable_key(alloc, &e.act)
}

fn is_word(text: &[u8]) -> bool
    ensures { result ≡ words.is_word text.now }
{
    !text.is_empty() && are_above_space(text)
}

fn are_above_space(text: &[u8]) -> bool
    ensures { result ≡ list_all (λ b. nat_lt 32 b) text.now }
{
    text.iter().all(|b| *b > b' ')
}

fn are_named(fields: &Fields) -> bool
    ensures { result ≡ words.are_named fields.now }
{
    fields.as_slice().iter().all(|f| has_token(f))
}

fn has_token(field: &Field) -> bool
    ensures { result ≡ requests.is_token field.now.name }
{
    is_token_text(field.name.as_slice())
}

fn are_names(names: &Names) -> bool
    ensures { result ≡ words.are_names names.now }
{
    names.len() <= MOST_NAMES && are_all_names(names)
}

fn are_all_names(names: &Names) -> bool
    ensures { result ≡ list_all identities.is_name names.now }
{
    names.as_slice().iter().all(|name| is_name(name.as_slice()))
}

fn is_unparted(host: &[u8]) -> bool
    ensures { result ≡ list_all (λ b. not (b == 44 || b == 47)) host.now }
{
    host.iter().all(|b| !(*b == b',' || *b == b'/'))
}

fn is_writable_alternative(a: &Alternative) -> bool
    ensures { result ≡ words.is_writable_alternative a.now }
{
    is_word(a.host.as_slice())
        && is_unparted(a.host.as_slice())
        && a.broken_until.0 == 0
        && a.proven_until.0 == 0
}

fn are_writable_alternatives(list: &Alternatives) -> bool
    ensures { result ≡ list_all words.is_writable_alternative list.now }
{
    list.as_slice().iter().all(|a| is_writable_alternative(a))
}

fn is_writable_alt(alt: &AltUpdate) -> bool
    ensures { result ≡ words.is_writable_alt alt.now }
{
    match alt {
        AltUpdate::None | AltUpdate::Clear => true,
        AltUpdate::Set(list) => are_writable_alternatives(list),
    }
}

fn is_writable_request(r: &Request) -> bool
    ensures { result ≡ spec.is_writable_request r.now }
{
    is_token_text(r.method.as_slice())
        && is_word(r.origin.host.as_slice())
        && is_word(r.path.as_slice())
        && are_named(&r.fields)
}

fn is_writable_response(r: &Response) -> bool
    ensures { result ≡ spec.is_writable_response r.now }
{
    are_named(&r.fields) && are_named(&r.trailers)
}

fn is_writable_report(report: &Report) -> bool
    ensures { result ≡ spec.is_writable_report report.now }
{
    match report {
        Report::Opened(identity) => are_names(&identity.names),
        Report::Answered { response, alt, .. } => {
            is_writable_response(response) && is_writable_alt(alt)
        }
        Report::AltSeen { origin, alt } => {
            is_word(origin.host.as_slice()) && is_writable_alt(alt)
        }
        Report::Limit(_)
        | Report::Refused(_)
        | Report::Reset(_, _)
        | Report::TooLarge(_)
        | Report::StreamClosed(_)
        | Report::Goaway(_) => true,
    }
}

/// All of an act but its partition key.
fn is_writable_act(act: &Act) -> bool
    ensures { result ≡ spec.is_writable_act act.now }
{
    match act {
        Act::Submit { ask, .. } => is_writable_request(&ask.request),
        Act::Preconnect { origin, .. } => is_word(origin.host.as_slice()),
        Act::Resolved { host, .. } => is_word(host.as_slice()),
        Act::Dial { target, .. } | Act::Want { target, .. } => is_word(target.host.as_slice()),
        Act::Orders { orders, .. } => orders.len() > 0,
        Act::Reported { report, .. } => is_writable_report(report),
        Act::Cancel { .. }
        | Act::Reprioritise { .. }
        | Act::Network
        | Act::Tick
        | Act::Shutdown { .. }
        | Act::Closed { .. }
        | Act::Expire(_)
        | Act::Lapse(_)
        | Act::Assign { .. }
        | Act::Evict(_) => true,
    }
}

/// The partition key of an act that has one.
fn has_writable_key(alloc: Global, act: &Act) -> Result<bool, NoMem>
    ensures { IfOk result (λ is. IsTrue is ↔ spec.HasWritableKey act.now) }
{
    match act {
        Act::Submit { ask, .. } => is_writable_key(alloc, &ask.key),
        Act::Preconnect { key, .. } => is_writable_key(alloc, key),
        Act::Resolved { key, .. } => is_writable_key(alloc, key),
        _ => Ok(true),
    }
}

fn is_writable_key(alloc: Global, key: &PartitionKey) -> Result<bool, NoMem>
    ensures { IfOk result (λ is. IsTrue is ↔ spec.IsWritableKey key.now) }
{
    match &key.second {
        None => is_site(alloc, &key.site),
        Some(_) => Ok(false),
    }
}

/// Whether the site has a text, which is to say that it is read back from it.
fn is_site(alloc: Global, site: &Site) -> Result<bool, NoMem>
    ensures { IfOk result (λ is. IsTrue is ↔ IsSite site.now) }
{
    let text = write_site(alloc, site)?;
    match read_site(alloc, text.as_slice()) {
        Ok(read) => Ok(read.same(site)),
        Err(SiteFault::NoMem) => Err(NoMem),
        Err(SiteFault::BadSite(_)) => Ok(false),
    }
}
