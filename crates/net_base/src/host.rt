// Hosts.
ghost use Rattle.std.specs.Prelude.{◌≡◌, IfOk, Ok};
ghost use Rattle.net_base.specs.Hosts as spec;

use plain_values::NoMem;
use std::alloc::Global;
use url::{ParseError, Url};

/// Whether the text is a host as the URL Standard writes it: `http://` and the text parse as a URL, and its host is the
/// text (URL Standard, "host parsing" and "host serializing").
pub fn is_plain_host(alloc: Global, host: &str) -> Result<bool, NoMem>
    ensures { IfOk result (λ b. b ≡ spec.is_plain_host host.now) }
{
    let text = format!(in alloc; "http://{host}")?;
    match Url::parse(alloc, text.as_str()) {
        Ok(url) => Ok(is_host_of(&url, host)),
        Err(ParseError::OutOfMemory) => Err(NoMem),
        Err(ParseError::Overflow) => Err(NoMem),
        Err(_) => Ok(false),
    }
}

fn is_host_of(url: &Url, host: &str) -> bool
    ensures { result ≡ spec.has_host host.now (Ok url.now) }
{
    match url.host_str() {
        Some(text) => text == host,
        None => false,
    }
}
