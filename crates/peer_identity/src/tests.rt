use super::*;
use net_base::{Identity, Names, Octets, Proto};
use std::test::Fail;

/// A host, and whether the names cover it (RFC 9525, section 6.3).
#[derive(Clone, Copy)]
struct Case(&'static [u8], bool);

#[test]
fn a_wildcard_stands_for_the_first_label_alone(rt: HostRuntime) -> Result<(), Fail> {
    let alloc = rt.alloc();
    let mut names = Names::new();
    names.push(alloc, Octets::build(alloc, b"*.Example.com")?)?;
    let id = Identity {
        names,
        secure: true,
        proto: Proto::H2,
        address: [0; 16],
    };
    let table = [
        Case(b"B.example.com", true),
        Case(b"a.b.example.com", false),
        Case(b"example.com", false),
        Case(b".example.com", false),
    ];
    for (i, Case(host, covered)) in table.into_iter().enumerate() {
        assert_eq!(rt; covers(&id, host), covered, "{i}");
    }
    Ok(())
}
