// What a connection's other side has shown of itself.
ghost use Rattle.std.specs.Prelude.{◌≡◌, map, All, IfOk, IfErr, OnOk, MatchOption};
ghost use Rattle.std.specs.List.{list_all};
ghost use Rattle.std.specs.Str.{str_to_ascii_lowercase};
ghost use Rattle.net_base.specs.Identities as spec;
ghost use Rattle.net_base.specs.Identities.{IsName, IsFirstBadName, AreNames, RefusesNames, identity_of};

use crate::target::Proto;
use plain_values::{Listed, NoMem, Octets, PlainValue, lower_case};
use std::alloc::Global;

/// A list of names.
pub type Names = Listed<Octets>;

/// A list of addresses: each an IPv6 address, or an IPv4 one mapped into it (RFC 4291, section 2.5.5.2).
pub type Addresses = Listed<[u8; 16]>;

/// What a dial reports of the other side: the names that it is the authority for, whether the connection is
/// secured, the protocol, and the address that was dialed (an IPv6 address, or an IPv4 one mapped into it).
#[derive(Debug, Drop)]
pub struct Identity {
    pub names: Names,
    pub secure: bool,
    pub proto: Proto,
    pub address: [u8; 16],
}

impl PlainValue for Identity {
    fn copy(&self, alloc: Global) -> Result<Identity, NoMem> {
        Ok(Identity {
            names: self.names.copy(alloc)?,
            secure: self.secure,
            proto: self.proto,
            address: self.address,
        })
    }

    fn same(&self, other: &Identity) -> bool {
        self.names.same(&other.names)
            && self.secure == other.secure
            && self.proto == other.proto
            && self.address == other.address
    }
}

/// Why no identity was built.
#[derive(Clone, Copy, Debug, PartialEq, Eq)]
pub enum IdentityFault {
    /// There was no memory.
    NoMem,
    /// There are so many names, and more than `MOST_NAMES`.
    TooManyNames(u64),
    /// The name at this place, counted from 0, is none: without a leading `*.` it is empty or is `-`, or it has an
    /// octet other than ASCII letters, digits, `-`, `.`, `_`, `:`, `[` and `]`.
    BadName(u64),
}

impl From<NoMem> for IdentityFault {
    ghost use Rattle.std.specs.Prelude.{◌≡◌};
    ghost use Rattle.net_base.specs.declared.identity.IdentityFault.TheVariants as fault;

    ghost from_gives = { λ _ e. e ≡ fault.NoMem };

    fn from(_: NoMem) -> IdentityFault {
        IdentityFault::NoMem
    }
}

/// How many names an identity may have. The number is this project's own.
pub const MOST_NAMES: usize = 100;

impl Identity {
    /// The identity with these names, which are kept in lower case. A leading `*.` is a wildcard (RFC 9525, section 6.3).
    ///
    /// `TooManyNames` where there are more than `MOST_NAMES`, `BadName` at the first that may be no name, in this order. That a name
    /// is a host isn't asked.
    pub fn build(
        alloc: Global,
        names: Names,
        secure: bool,
        proto: Proto,
        address: [u8; 16],
    ) -> Result<Identity, IdentityFault>
        ensures ok { IfOk result (λ id. id ≡ identity_of names secure proto address) }
        ensures names { OnOk result (AreNames names) }
        ensures refused { IfErr result (RefusesNames names) }
    {
        check_names(&names)?;
        let names = lowered_names(alloc, &names)?;
        Ok(Identity {
            names,
            secure,
            proto,
            address,
        })
    }
}

fn check_names(names: &Names) -> Result<(), IdentityFault>
    ensures ok { OnOk result (AreNames names.now) }
    ensures refused { IfErr result (RefusesNames names.now) }
{
    if names.len() > MOST_NAMES {
        return Err(IdentityFault::TooManyNames(names.len() as u64));
    }
    match first_bad_name(names.as_slice()) {
        None => Ok(()),
        Some(i) => Err(IdentityFault::BadName(i as u64)),
    }
}

fn first_bad_name(names: &[Octets]) -> Option<usize>
    ensures { MatchOption result (All IsName names.now) (IsFirstBadName names.now) }
{
    for (i, name) in names.iter().enumerate() {
        if !is_name(name.as_slice()) {
            return Some(i);
        }
    }
    None
}

/// Whether the name may stand in an identity: a host's name or address, before which `*.` may stand as a wildcard
/// (RFC 9525, section 6.3).
pub fn is_name(name: &[u8]) -> bool
    ensures { result ≡ spec.is_name name.now }
{
    is_plain_name(name) || (name.starts_with(b"*.") && is_plain_name(&name[2..]))
}

fn is_plain_name(name: &[u8]) -> bool
    ensures { result ≡ spec.is_plain_name name.now }
{
    !name.is_empty() && name != b"-".as_slice() && are_name_octets(name)
}

fn are_name_octets(name: &[u8]) -> bool
    ensures { result ≡ list_all spec.is_name_octet name.now }
{
    name.iter().all(|c| is_name_octet(*c))
}

fn is_name_octet(c: u8) -> bool
    ensures { result ≡ spec.is_name_octet c }
{
    c.is_ascii_alphanumeric() || b"-._:[]".contains(&c)
}

fn lowered_names(alloc: Global, names: &Names) -> Result<Names, NoMem>
    ensures { IfOk result (λ it. it ≡ map str_to_ascii_lowercase names.now) }
{
    let mut all = Names::new();
    for name in names.as_slice() {
        all.push(alloc, lower_case(alloc, name.as_slice())?)?;
    }
    Ok(all)
}
