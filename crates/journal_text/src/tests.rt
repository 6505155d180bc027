use super::*;
use model_values::*;
use net_base::*;
use partition_keys::*;
use std::alloc::Global;
use std::test::Fail;

/// A line of each kind, as docs/JOURNAL.md has them.
const LINES: &str = r#"poolrun 1
0 2 submit https://top.test + 3 fore - plain GET http://a.test:80 / - - = accepted 1
10 2 cancel 4 = cancelled
10 2 reprioritise 4 7 = unknown
10 2 preconnect https://top.test + https://a.test:443 3 = no-room 32 6
10 2 resolved https://top.test a.test 00000000000000000000000000000000,ffffffffffffffffffffffffffffffff = noted
10 2 resolved https://top.test a.test - = too-many 17
10 2 network
10 2 tick
10 2 shutdown = closed 9
10 2 seek = dial 1 a.test:443 secure h2
10 2 limit 1 32 100
10 2 refused 1 32 3
10 2 reset 1 32 3 8
10 2 too-large 1 32 3
10 2 stream-closed 1 32 3
10 2 goaway 1 32 3
10 2 opened 1 32 secure h2 01010101010101010101010101010101 a.test,*.a.test
10 2 opened 1 32 clear h1 00000000000000000000ffff7f000001 -
10 2 answered 1 32 3 keep 200 - 6f6b x:797a,empty: none none
10 2 alt 1 32 https://a.test:443 set -
10 2 closed 1 64 done -
10 0 assign 2 1 1 coalesced
10 0 want 2 1 a.test:443 secure direct
10 0 expire 2
10 0 lapse 2
10 0 evict 1
end 26
"#;

#[test]
fn a_line_of_each_kind_is_read_and_written_again(rt: HostRuntime) -> Result<(), Fail> {
    let alloc = rt.alloc();
    let Ok(h) = read_journal(alloc, LINES.as_bytes()) else {
        return Err(Fail::new("no journal"));
    };
    assert_eq!(rt; write_journal(alloc, &h)?.as_slice(), LINES.as_bytes());
    Ok(())
}

/// The journal of the entries that are put together below.
const BY_HAND: &str = r#"poolrun 1
10 2 submit opaque:7 - 0 back 500 probe POST https://a.test:443 /?q x:797a,empty: 6f6b = full 5000
10 2 orders 1 64 = start 5 3 reset 1 close
10 2 answered 1 32 1 last 200 x:797a,empty: - - set h2/alt.test/8443/60000/keep bad media
10 2 closed 1 64 broken:259:12 1,3
end 4
"#;

fn octets(alloc: Global, text: &str) -> Result<Octets, NoMem> {
    Octets::build(alloc, text.as_bytes())
}

/// One field with a value and one without.
fn two_fields(alloc: Global) -> Result<Fields, NoMem> {
    let mut fields = Fields::new();
    let name = octets(alloc, "x")?;
    let value = octets(alloc, "yz")?;
    fields.push(alloc, Field { name, value })?;
    let name = octets(alloc, "empty")?;
    let value = Octets::new();
    fields.push(alloc, Field { name, value })?;
    Ok(fields)
}

/// A submission with nothing empty.
fn post(alloc: Global) -> Result<Act, NoMem> {
    let origin = Origin {
        scheme: Scheme::Https,
        host: octets(alloc, "a.test")?,
        port: 443,
    };
    let ask = Submission {
        key: PartitionKey {
            site: Site::Opaque(7),
            second: None,
        },
        credentials: false,
        request: Request {
            method: octets(alloc, "POST")?,
            origin,
            path: octets(alloc, "/?q")?,
            fields: two_fields(alloc)?,
            body: octets(alloc, "ok")?,
        },
        urgency: 0,
        background: true,
        deadline: Some(Moment(500)),
        probe: true,
    };
    let reply = SubmitReply::SubmissionsFull(5000);
    Ok(Act::Submit { ask, reply })
}

fn orders(alloc: Global) -> Result<Act, NoMem> {
    let mut orders = OrderMarks::new();
    let exchange = ExchangeNo(5);
    let stream = StreamNo(3);
    orders.push(alloc, OrderMark::Start { exchange, stream })?;
    orders.push(alloc, OrderMark::Reset(StreamNo(1)))?;
    orders.push(alloc, OrderMark::Close)?;
    Ok(Act::Orders {
        conn: ConnNo(1),
        sent: 64,
        orders,
    })
}

fn answered(alloc: Global) -> Result<Act, NoMem> {
    let mut list = Alternatives::new();
    list.push(
        alloc,
        Alternative {
            proto: Proto::H2,
            host: octets(alloc, "alt.test")?,
            port: 8443,
            expires: Moment(60000),
            persist: true,
            broken_until: Moment(0),
            proven_until: Moment(0),
        },
    )?;
    let response = Response {
        status: 200,
        fields: two_fields(alloc)?,
        body: Octets::new(),
        trailers: Fields::new(),
    };
    let report = Report::Answered {
        stream: StreamNo(1),
        response,
        keep: false,
        alt: AltUpdate::Set(list),
        proof: Proof::NotValid(Why::Media),
    };
    let conn = ConnNo(1);
    let sent = 32;
    Ok(Act::Reported { conn, sent, report })
}

fn closed(alloc: Global) -> Result<Act, NoMem> {
    let mut heard = StreamList::new();
    heard.push(alloc, StreamNo(1))?;
    heard.push(alloc, StreamNo(3))?;
    Ok(Act::Closed {
        conn: ConnNo(1),
        sent: 64,
        cause: EndCause::Broken {
            code: 259,
            place: 12,
        },
        heard,
    })
}

fn add(alloc: Global, h: &mut History, act: Act) -> Result<(), NoMem> {
    let entry = Entry {
        who: CallerNo(2),
        moment: Moment(10),
        act,
    };
    h.push(alloc, entry)
}

fn by_hand(alloc: Global) -> Result<History, NoMem> {
    let mut h = History::new();
    add(alloc, &mut h, post(alloc)?)?;
    add(alloc, &mut h, orders(alloc)?)?;
    add(alloc, &mut h, answered(alloc)?)?;
    add(alloc, &mut h, closed(alloc)?)?;
    Ok(h)
}

#[test]
fn entries_have_the_words_of_their_values(rt: HostRuntime) -> Result<(), Fail> {
    let alloc = rt.alloc();
    let h = by_hand(alloc)?;
    assert_eq!(rt; write_journal(alloc, &h)?.as_slice(), BY_HAND.as_bytes());
    Ok(())
}
