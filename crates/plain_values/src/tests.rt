use super::*;
use std::test::Fail;

#[test]
fn octets_and_lists_grow_and_are_copied_where_there_is_memory(rt: HostRuntime) -> Result<(), Fail> {
    let alloc = rt.alloc();
    let mut text = Octets::new();
    text.extend(alloc, b"X-")?;
    text.push(alloc, b'a')?;
    let mut list: Listed<Octets> = Listed::new();
    list.push(alloc, lower_case(alloc, text.as_slice())?)?;
    list.push(alloc, Octets::build(alloc, b"b")?)?;
    let all = Some(list);
    assert!(rt; all.copy(alloc)?.same(&all));
    Ok(())
}

#[test]
fn the_first_line_is_cut_from_what_stands_behind_it(rt: HostRuntime) {
    let cut = first_line(b"a b\n\nc");
    assert!(rt;
        matches!(&cut, Some(cut) if cut.line == b"a b".as_slice() && cut.behind == b"\nc".as_slice())
    );
    assert!(rt; first_line(b"a b").is_none());
}

#[test]
fn a_sum_passes_no_u64(rt: HostRuntime) {
    assert_eq!(rt; plus(2, 3), Ok(5));
    assert_eq!(rt; plus(u64::MAX, 1), Err(NoMem));
}
