// Whether an identity covers a host.
ghost use Rattle.std.specs.Prelude.{◌≡◌, ◌↔◌, ◌<◌, IsTrue, IfSome, length, position};
ghost use Rattle.std.specs.Option.{option_copied};
ghost use Rattle.std.specs.List.{list_any};
ghost use Rattle.std.specs.Str.{str_eq_ignore_ascii_case};
ghost use Rattle.peer_identity.specs.Covers as spec;
ghost use Rattle.peer_identity.specs.Covers.{Covers};

use net_base::{Identity, Names};

/// Whether one of the identity's names is the host, or is `*.` and what follows the host's first label and its dot.
/// ASCII letters count the same in either case (RFC 9525, section 6.3).
pub fn covers(id: &Identity, host: &[u8]) -> bool
    ensures fact { IsTrue result ↔ Covers id.now host.now }
    ensures test { result ≡ spec.is_covered id.now host.now }
{
    some_matches(&id.names, host)
}

/// Whether some name is this host or covers it by its first label.
fn some_matches(names: &Names, host: &[u8]) -> bool
    ensures { result ≡ list_any (λ name. spec.matches_host name host.now) names.now }
{
    names
        .as_slice()
        .iter()
        .any(|name| matches_host(name.as_slice(), host))
}

/// Whether a name is this host or covers it by its first label.
fn matches_host(name: &[u8], host: &[u8]) -> bool
    ensures { result ≡ spec.matches_host name.now host.now }
{
    same_in_any_case(name, host) || matches_by_label(name, host)
}

/// Whether a name is `*.` and what follows the host's first label and its dot.
fn matches_by_label(name: &[u8], host: &[u8]) -> bool
    ensures { result ≡ spec.matches_by_label name.now host.now }
{
    match behind_label(host) {
        Some(tail) => name.starts_with(b"*.") && same_in_any_case(&name[2..], tail),
        None => false,
    }
}

/// What follows the host's first label and its dot, where that label isn't empty.
fn behind_label(host: &[u8]) -> Option<&[u8]>
    ensures { option_copied result ≡ spec.behind_label host.now }
{
    match first_dot(host) {
        Some(dot) if dot > 0 => Some(&host[dot + 1..]),
        _ => None,
    }
}

fn first_dot(host: &[u8]) -> Option<usize>
    ensures place { result ≡ position spec.is_dot host.now }
    ensures within { IfSome result (λ dot. dot < length host.now) }
{
    host.iter().position(|c| *c == b'.')
}

fn same_in_any_case(a: &[u8], b: &[u8]) -> bool
    ensures { result ≡ str_eq_ignore_ascii_case a.now b.now }
{
    a.eq_ignore_ascii_case(b)
}
