use super::*;
use std::alloc::Global;
use std::test::Fail;

/// A URL, and the host, the port, the path and the authority of its request.
#[derive(Clone, Copy)]
struct Read(
    &'static str,
    &'static [u8],
    u16,
    &'static [u8],
    &'static [u8],
);

#[test]
fn urls_are_read_as_the_url_standard_says(rt: HostRuntime) -> Result<(), Fail> {
    let alloc = rt.alloc();
    let table = [
        Read(
            "http://A.test:8080/x?y#z",
            b"a.test",
            8080,
            b"/x?y",
            b"a.test:8080",
        ),
        Read("https://u:p@a.test", b"a.test", 443, b"/", b"a.test"),
        Read("http://[::1]:0/a/../b?", b"[::1]", 0, b"/b?", b"[::1]:0"),
    ];
    for Read(url, host, port, path, authority_text) in table {
        let request = Request::build(alloc, b"GET", url, Fields::new(), Octets::new())?;
        assert_eq!(rt; request.origin.host.as_slice(), host, "{url}");
        assert_eq!(rt; request.origin.port, port, "{url}");
        assert_eq!(rt; request.path.as_slice(), path, "{url}");
        assert_eq!(rt;
            authority(alloc, &request.origin)?.as_slice(),
            authority_text,
            "{url}"
        );
    }
    Ok(())
}

#[test]
fn hosts_are_plain_as_the_url_standard_writes_them(rt: HostRuntime) -> Result<(), Fail> {
    let alloc = rt.alloc();
    for host in ["a.test", "[::1]", "127.0.0.1"] {
        assert!(rt; is_plain_host(alloc, host)?, "{host}");
    }
    for host in ["", "A.test", "a.test:80", "127.1", "u@a.test"] {
        assert!(rt; !is_plain_host(alloc, host)?, "{host}");
    }
    Ok(())
}

fn one_field(alloc: Global, name: &[u8], value: &[u8]) -> Result<Fields, NoMem> {
    let mut fields = Fields::new();
    fields.push(
        alloc,
        Field {
            name: Octets::build(alloc, name)?,
            value: Octets::build(alloc, value)?,
        },
    )?;
    Ok(fields)
}

#[test]
fn a_post_to_an_alternative_says_so_behind_its_fields(rt: HostRuntime) -> Result<(), Fail> {
    let alloc = rt.alloc();
    let fields = one_field(alloc, b"X-A", b"1\t2")?;
    let body = Octets::build(alloc, b"hello")?;
    let request = Request::build(alloc, b"POST", "https://a.test/", fields, body)?;
    let target = Target {
        host: Octets::build(alloc, b"alt.test")?,
        port: 8443,
        secure: true,
        via: Via::Alternative(Proto::H2),
    };
    let sent = dressed(alloc, &request, &target)?;
    assert_eq!(rt; sent.fields.len(), 2);
    let Some(last) = sent.fields.get(1) else {
        return Err(Fail::new("no second field"));
    };
    assert_eq!(rt; last.name.as_slice(), b"alt-used".as_slice());
    assert_eq!(rt; last.value.as_slice(), b"alt.test:8443".as_slice());
    Ok(())
}

fn peer(alloc: Global, names: Names) -> Result<Peer, NoMem> {
    let mut answers = Answers::new();
    answers.push(
        alloc,
        Answer {
            path: Octets::build(alloc, b"*")?,
            authority: Some(Octets::build(alloc, b"a.test")?),
            status: 200,
            body: AnswerBody::Size(3),
            fields: one_field(alloc, b"x", b"")?,
        },
    )?;
    let mut acts = PeerActs::new();
    acts.push(
        alloc,
        PeerAct {
            conn: Some(ConnNo(1)),
            kind: ActKind::AltFrame {
                value: Octets::build(alloc, b"clear")?,
            },
        },
    )?;
    Ok(Peer {
        host: Octets::build(alloc, b"a.test")?,
        port: 443,
        secure: true,
        proto: Proto::H2,
        names,
        address: [7; 16],
        answers,
        acts,
    })
}

#[test]
fn identities_and_peers_are_made_where_there_is_memory(rt: HostRuntime) -> Result<(), Fail> {
    let alloc = rt.alloc();
    let mut names = Names::new();
    names.push(alloc, Octets::build(alloc, b"*.A.test")?)?;
    let id = Identity::build(alloc, names, true, Proto::H2, [7; 16])?;
    for name in id.names.as_slice() {
        assert_eq!(rt; name.as_slice(), b"*.a.test".as_slice());
    }
    let one = peer(alloc, id.names)?;
    assert!(rt; one.copy(alloc)?.same(&one));
    Ok(())
}
