use super::*;
use net_base::{Listed, Octets};
use serde_json::Value;
use std::alloc::Global;
use std::test::Fail;

/// What a reader says of the member `a` of the object that the text is.
fn read_a<T, R: Reads<T>>(alloc: Global, text: &str, reader: &R) -> Result<T, ScenarioFault> {
    let Ok(value) = Value::from_slice(alloc, text.as_bytes()) else {
        return Err(ScenarioFault::NotJson);
    };
    let at = At {
        path: Octets::new(),
        value: &value,
    };
    only(alloc, &at, &["a"])?;
    required(alloc, &at, "a", reader)
}

/// At most three numbers from 1 to 9.
fn numbers(alloc: Global, text: &str) -> Result<Listed<u8>, ScenarioFault> {
    let reader = ListOf {
        most: 3,
        item: Whole { least: 1, most: 9 },
    };
    read_a(alloc, text, &reader)
}

#[test]
fn a_list_is_read_item_by_item(rt: HostRuntime) -> Result<(), Fail> {
    let alloc = rt.alloc();
    let list = numbers(alloc, r#"{"a":[9,1,3]}"#)?;
    assert_eq!(rt; list.as_slice(), [9, 1, 3].as_slice());
    let flags: Listed<bool> = read_a(alloc, r#"{"a":[true]}"#, &AnyListOf { item: Flag })?;
    assert_eq!(rt; flags.as_slice(), [true].as_slice());
    let texts: Option<Octets> = read_a(alloc, r#"{"a":"x"}"#, &Given(Text))?;
    assert!(rt; matches!(texts, Some(_)));
    Ok(())
}

#[test]
fn a_fault_is_named_with_its_path(rt: HostRuntime) -> Result<(), Fail> {
    let Err(ScenarioFault::Unsupported(path)) = numbers(rt.alloc(), r#"{"a":0,"x/~":1}"#) else {
        return Err(Fail::new("no fault"));
    };
    assert_eq!(rt; path.as_slice(), b"/x~1~0".as_slice());
    Ok(())
}
