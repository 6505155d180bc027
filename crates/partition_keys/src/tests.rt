use super::*;
use std::test::Fail;

#[test]
fn texts_of_sites_are_read_and_written_back(rt: HostRuntime) -> Result<(), Fail> {
    let alloc = rt.alloc();
    let table = [
        b"http://127.0.0.1".as_slice(),
        b"https://[::1]".as_slice(),
        b"opaque:18446744073709551615".as_slice(),
    ];
    for text in table {
        let site = read_site(alloc, text)?;
        assert_eq!(rt; write_site(alloc, &site)?.as_slice(), text);
    }
    Ok(())
}

/// Hosts that the URL Standard's parser gives back in another form, or doesn't take.
#[test]
fn hosts_in_another_form_are_no_sites(rt: HostRuntime) {
    let table = [
        b"https://A.test".as_slice(),
        b"http://a.test:80".as_slice(),
        b"http://u@a.test".as_slice(),
        b"https://a b".as_slice(),
        b"http://127.1".as_slice(),
    ];
    for (i, text) in table.into_iter().enumerate() {
        assert!(rt;
            matches!(read_site(rt.alloc(), text), Err(SiteFault::BadSite(_))),
            "{i}"
        );
    }
}
