use super::*;
use net_base::*;
use std::test::Fail;

const EXAMPLE: &[u8] =
    b"{\"peers\":[{\"host\":\"a.test\",\"port\":80,\"answers\":[{\"path\":\"/\",\"text\":\"ok\"}]}],\"channels\":[{\"calls\":[{\"call\":\"submit\",\"url\":\"HTTP://A.test/b?c#d\"}]}]}";

#[test]
fn the_example_is_read(rt: HostRuntime) -> Result<(), Fail> {
    let Ok(form) = read_form(rt.alloc(), EXAMPLE) else {
        return Err(Fail::new("no form"));
    };
    for peer in form.peers.as_slice() {
        assert_eq!(rt; peer.host.as_slice(), b"a.test".as_slice());
        assert_eq!(rt; (peer.port, peer.answers.len()), (80, 1));
    }
    assert_eq!(rt; form.request.origin.host.as_slice(), b"a.test".as_slice());
    assert_eq!(rt; form.request.path.as_slice(), b"/b?c".as_slice());
    Ok(())
}
