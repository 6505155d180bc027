// Request methods.
ghost use Rattle.std.specs.Prelude.{◌≡◌};
ghost use Rattle.net_base.specs.Methods.{is_idempotent_method};

use crate::request::Request;

/// Whether a request may be sent again where nothing is known of its first sending (RFC 9110, section 9.2.2): true
/// exactly for the methods GET, HEAD, OPTIONS, PUT and DELETE. Methods are case-sensitive (section 9.1).
pub fn is_idempotent(r: &Request) -> bool
    ensures { result ≡ is_idempotent_method r.now.method }
{
    let method = r.method.as_slice();
    method == b"GET".as_slice()
        || method == b"HEAD".as_slice()
        || method == b"OPTIONS".as_slice()
        || method == b"PUT".as_slice()
        || method == b"DELETE".as_slice()
}
