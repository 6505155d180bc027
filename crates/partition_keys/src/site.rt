// Sites, and how they are read and written.
ghost use Rattle.std.specs.Prelude.{◌≡◌, ◌≢◌, ◌↔◌, ℕ, ◌<◌, ◌^◌, List, ◌++◌, IsTrue, IfOk, IfErr, MatchOption, MatchResult, None, Some, IsUtf8, ◌⊎◌};
ghost use Rattle.std.specs.Fmt.{decimal};
ghost use Rattle.net_base.specs.Origins.{scheme_text};
ghost use Rattle.partition_keys.specs.Sites as spec;
ghost use Rattle.partition_keys.specs.Sites.{IsSiteHost, IsSiteText, RefusesSite, site_of};

use net_base::{NoMem, Octets, PlainValue, Scheme, is_plain_host, number_in};
use std::alloc::Global;

/// A site (HTML Standard, section 7.1.1): a scheme with a host, which the caller has cut to its registrable domain,
/// or an opaque one with a number of its own.
#[derive(Debug, Drop)]
pub enum Site {
    Tuple(Scheme, Octets),
    Opaque(u64),
}

impl PlainValue for Site {
    fn copy(&self, alloc: Global) -> Result<Site, NoMem> {
        match self {
            Site::Tuple(scheme, host) => Ok(Site::Tuple(*scheme, host.copy(alloc)?)),
            Site::Opaque(number) => Ok(Site::Opaque(*number)),
        }
    }

    fn same(&self, other: &Site) -> bool {
        match (self, other) {
            (Site::Tuple(s, h), Site::Tuple(t, g)) => *s == *t && h.same(g),
            (Site::Opaque(n), Site::Opaque(m)) => *n == *m,
            _ => false,
        }
    }
}

/// Why no site was read.
#[derive(Clone, Copy, Debug, PartialEq, Eq)]
pub enum SiteFault {
    /// There was no memory.
    NoMem,
    /// The text is that of no site. The place is that behind `http://`, `https://` or `opaque:`, whichever the text
    /// begins with, and 0 where it begins with none of them.
    BadSite(u64),
}

impl From<NoMem> for SiteFault {
    ghost use Rattle.std.specs.Prelude.{◌≡◌};
    ghost use Rattle.partition_keys.specs.declared.site.SiteFault.TheVariants as fault;

    ghost from_gives = { λ _ e. e ≡ fault.NoMem };

    fn from(_: NoMem) -> SiteFault {
        SiteFault::NoMem
    }
}

/// Reads the text of a site: `http://` or `https://` and a host that the URL Standard's parser gives back as it is
/// written, or `opaque:` and a number below 2^64 in decimal, without leading zeros.
///
/// `BadSite` where the text is another, also where a host isn't UTF-8.
pub fn read_site(alloc: Global, text: &[u8]) -> Result<Site, SiteFault>
    ensures ok { IfOk result (IsSiteText text.now) }
    ensures refused { IfErr result (RefusesSite text.now) }

    // Each site is read from its one text.
    ensures back { (s : Site) → IsSiteText text.now s → MatchResult result (λ t. t ≡ s) (λ e. e ≡ SiteFault.NoMem) }

    // Of a text in UTF-8 the site can be computed.
    ensures computes { IsUtf8 text.now → MatchResult result (λ s. site_of text.now ≡ Some s) (λ e. (e ≡ SiteFault.NoMem) ⊎ (site_of text.now ≡ None)) }
{
    site_in(alloc, text)
}

/// The site whose text this is, or why it is none's.
fn site_in(alloc: Global, text: &[u8]) -> Result<Site, SiteFault>
    ensures ok { IfOk result (IsSiteText text.now) }
    ensures refused { IfErr result (RefusesSite text.now) }
{
    if let Some(host) = behind(text, b"http://") {
        return or_bad(tuple_site(alloc, Scheme::Http, host)?, 7);
    }
    if let Some(host) = behind(text, b"https://") {
        return or_bad(tuple_site(alloc, Scheme::Https, host)?, 8);
    }
    if let Some(digits) = behind(text, b"opaque:") {
        return or_bad(opaque_site(alloc, digits)?, 7);
    }
    Err(SiteFault::BadSite(0))
}

fn or_bad(site: Option<Site>, place: u64) -> Result<Site, SiteFault>
    ensures { MatchResult result (λ s. site ≡ Some s) (λ e. (site ≡ None) × (e ≡ SiteFault.BadSite place)) }
{
    match site {
        Some(site) => Ok(site),
        None => Err(SiteFault::BadSite(place)),
    }
}

/// What follows the beginning, where the text begins so.
fn behind<'t>(text: &'t [u8], beginning: &[u8]) -> Option<&'t [u8]>
    ensures { MatchOption result ((rest : List ℕ) → text.now ≢ beginning.now ++ rest) (λ rest. text.now ≡ beginning.now ++ rest.now) }
{
    text.strip_prefix(beginning)
}

/// The site of this scheme and host, where the host is that of a site.
fn tuple_site(alloc: Global, scheme: Scheme, host: &[u8]) -> Result<Option<Site>, NoMem>
    ensures { IfOk result (λ site. MatchOption site (¬ (IsSiteHost host.now)) (λ s. IsSiteHost host.now × (s ≡ Site.Tuple scheme host.now))) }
{
    if !is_site_host(alloc, host)? {
        return Ok(None);
    }
    Ok(Some(Site::Tuple(scheme, Octets::build(alloc, host)?)))
}

fn is_site_host(alloc: Global, host: &[u8]) -> Result<bool, NoMem>
    ensures { IfOk result (λ is. IsTrue is ↔ IsSiteHost host.now) }
{
    match std::str::from_utf8(host) {
        Ok(host) => is_plain_host(alloc, host),
        Err(_) => Ok(false),
    }
}

/// The opaque site of the number that the digits write, where they write one.
fn opaque_site(alloc: Global, digits: &[u8]) -> Result<Option<Site>, NoMem>
    ensures { IfOk result (λ site. MatchOption site ((n : ℕ) → n < 2 ^ 64 → digits.now ≢ decimal n) (λ s. (n : ℕ) × (n < 2 ^ 64) × (digits.now ≡ decimal n) × (s ≡ Site.Opaque n))) }
{
    let Some(number) = number_in(digits) else {
        return Ok(None);
    };
    let written = format!(in alloc; "{number}")?;
    if written.as_bytes() != digits {
        return Ok(None);
    }
    Ok(Some(Site::Opaque(number)))
}

/// Writes the one text of a site: the scheme, `://` and the host, or `opaque:` and the number in decimal.
pub fn write_site(alloc: Global, s: &Site) -> Result<Octets, NoMem>
    ensures { IfOk result (λ text. text ≡ spec.site_text s.now) }
{
    match s {
        Site::Tuple(scheme, host) => tuple_text(alloc, *scheme, host.as_slice()),
        Site::Opaque(number) => opaque_text(alloc, *number),
    }
}

fn tuple_text(alloc: Global, scheme: Scheme, host: &[u8]) -> Result<Octets, NoMem>
    ensures { IfOk result (λ text. text ≡ spec.site_text (Site.Tuple scheme host.now)) }
{
    let mut text = Octets::build(alloc, scheme_name(scheme).as_bytes())?;
    text.extend(alloc, b"://")?;
    text.extend(alloc, host)?;
    Ok(text)
}

fn scheme_name(scheme: Scheme) -> &'static str
    ensures { result.now ≡ scheme_text scheme }
{
    match scheme {
        Scheme::Http => "http",
        Scheme::Https => "https",
    }
}

fn opaque_text(alloc: Global, number: u64) -> Result<Octets, NoMem>
    ensures { IfOk result (λ text. text ≡ spec.site_text (Site.Opaque number)) }
{
    let text = format!(in alloc; "opaque:{number}")?;
    Octets::build(alloc, text.as_bytes())
}
