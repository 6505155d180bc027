use super::*;
use net_base::{Field, Fields, Octets, Request};
use std::test::*;

#[test]
fn a_request_is_written_line_by_line(rt: HostRuntime) -> Result<(), Fail> {
    let alloc = rt.alloc();
    let name = Octets::build(alloc, b"Accept")?;
    let value = Octets::build(alloc, b"*/*")?;
    let mut fields = Fields::new();
    fields.push(alloc, Field { name, value })?;
    let body = Octets::build(alloc, b"hello")?;
    let request = Request::build(alloc, b"POST", "http://a.test:8080/a?b", fields, body)?;
    assert_eq!(rt;
        write_request(alloc, &request)?.as_slice(),
        b"POST /a?b HTTP/1.1\r\nhost: a.test:8080\r\naccept: */*\r\ncontent-length: 5\r\n\r\nhello".as_slice()
    );
    Ok(())
}

#[test]
fn a_head_is_read_behind_blank_lines(rt: HostRuntime) -> Result<(), Fail> {
    let bytes = b"\r\n\nHTTP/1.0 404\nServer:  x \r\nVIA: 1.1 Y\r\n\nbody";
    let HeadRead::Whole(head, n) = read_head(rt.alloc(), bytes)? else {
        return Err(Fail::new("no head"));
    };
    assert_eq!(rt; n, 42);
    assert_eq!(rt; (head.minor, head.status, head.fields.len()), (0, 404, 2));
    let Some(last) = head.fields.get(1) else {
        return Err(Fail::new("no second field"));
    };
    assert_eq!(rt; last.name.as_slice(), b"via".as_slice());
    assert_eq!(rt; last.value.as_slice(), b"1.1 Y".as_slice());
    Ok(())
}
