use super::InnerDialer;
use edge_traits::{Dialed, Dialer, Link, LinkRead, LinkWrite, NetKind};
use net_base::{Answer, AnswerBody, ConnNo, Listed, NoMem, Octets, Peer, Proto, Target, Via};
use std::alloc::Global;
use std::rt::HostRuntime;
use std::test::Fail;

fn peer(alloc: Global) -> Result<Peer, NoMem> {
    let mut answers = Listed::new();
    answers.push(
        alloc,
        Answer {
            path: Octets::build(alloc, b"/")?,
            authority: None,
            status: 200,
            body: AnswerBody::Size(3),
            fields: Listed::new(),
        },
    )?;
    Ok(Peer {
        host: Octets::build(alloc, b"a.test")?,
        port: 80,
        secure: false,
        proto: Proto::H1,
        names: Listed::new(),
        address: [0; 16],
        answers,
        acts: Listed::new(),
    })
}

fn target(alloc: Global, port: u16) -> Result<Target, NoMem> {
    Ok(Target {
        host: Octets::build(alloc, b"a.test")?,
        port,
        secure: false,
        via: Via::Direct,
    })
}

#[test]
fn a_link_gives_what_the_origin_puts(rt: HostRuntime) -> Result<(), Fail> {
    let alloc = rt.alloc();
    let mut peers = Listed::new();
    peers.push(alloc, peer(alloc)?)?;
    let mut dialer = InnerDialer::new();
    dialer.stage(alloc, NetKind::Inner, &peers)?;
    let here = target(alloc, 80)?;
    let Dialed::Up(mut link, identity) = dialer.dial(alloc, ConnNo(2), &here) else {
        return Err(Fail::new("no link"));
    };
    assert_eq!(rt; identity.proto, Proto::H1);
    let text = b"GET / HTTP/1.1\r\n\r\n?\r\n\r\n";
    assert!(rt; matches!(link.write(alloc, text), LinkWrite::Took(23)));
    let mut front = [0; 7];
    assert!(rt; matches!(link.read(alloc, &mut front), LinkRead::Got(7)));
    assert_eq!(rt; front, *b"HTTP/1.");
    let mut rest = [0; 33];
    assert!(rt; matches!(link.read(alloc, &mut rest), LinkRead::Got(32)));
    assert_eq!(rt; rest, *b"1 200 \r\ncontent-length: 3\r\n\r\nxxx\0");
    assert!(rt; matches!(link.read(alloc, &mut rest), LinkRead::End));
    dialer.retire(ConnNo(2), link);
    let elsewhere = target(alloc, 81)?;
    assert!(rt; matches!(dialer.dial(alloc, ConnNo(3), &elsewhere), Dialed::Failed));
    Ok(())
}
