use super::*;
use model_values::ScriptCall;
use net_base::Octets;
use std::alloc::Global;
use std::test::Fail;

const EXAMPLE: &str =
    r#"{"peers":[{"host":"www.shop.test","port":443,"secure":true,"proto":"h2","names":["*.shop.test"],"answers":[{"path":"*","size":3000}]}],"channels":[{"calls":[{"call":"preconnect","url":"https://www.shop.test/","count":1},{"call":"submit","url":"https://www.shop.test/a.css","urgency":1},{"call":"submit","url":"https://www.shop.test/b.png","urgency":6}]}]}"#;

#[test]
fn the_example_is_read(rt: HostRuntime) -> Result<(), Fail> {
    let Ok(scenario) = read_scenario(rt.alloc(), EXAMPLE.as_bytes()) else {
        return Err(Fail::new("no scenario"));
    };
    assert_eq!(rt; scenario.peers.len(), 1);
    for calls in scenario.channels.as_slice() {
        match calls.as_slice() {
            [
                ScriptCall::Preconnect { count, .. },
                ScriptCall::Submit(style),
                ScriptCall::Submit(image),
            ] => {
                assert_eq!(rt; (*count, style.urgency, image.urgency), (1, 1, 6));
                assert_eq!(rt; image.request.path.as_slice(), b"/b.png".as_slice());
            }
            _ => return Err(Fail::new("other calls")),
        }
    }
    Ok(())
}

/// Scenarios, and what each gives: for each kind of object the path of a fault within it, and what it takes.
const ROWS: &str = r#"{"x":1,"peers":[],"channels":[]} => Unsupported /x
{"config":{"total":33},"peers":[],"channels":[]} => BadValue /config/total
{"peers":[{"host":"A.test","port":0}],"channels":[]} => BadValue /peers/0/host
{"peers":[{"host":"a.test","port":443,"names":["a.test","*."]}],"channels":[]} => BadValue /peers/0/names/1
{"peers":[{"host":"a.test","port":443,"answers":[{"path":"*","fields":[["a",1]]}]}],"channels":[]} => BadValue /peers/0/answers/0/fields/0/1
{"peers":[{"host":"a.test","port":443,"acts":[{"kind":"limit","n":1}]}],"channels":[]} => BadValue /peers/0/acts/0/kind
{"peers":[],"channels":[{"calls":[]},{"calls":[],"x":1}]} => Unsupported /channels/1/x
{"peers":[],"channels":[{"calls":[{"call":"submit","url":"ftp://a.test/"}]}]} => BadValue /channels/0/calls/0
{"peers":[],"channels":[{"calls":[{"call":"submit","url":"http://a/"},{"call":"wait","of":2}]}]} => BadValue /channels/0/calls/1/of
{"net":"tcp","config":{"per_group":6,"background":0,"last_stream":1,"submissions":1},"peers":[],"channels":[]} => a scenario
{"peers":[{"host":"a.test","port":1,"address":"0000000000000000000000000000000a","acts":[{"kind":"hold","until":1},{"kind":"drop","after":1}]}],"channels":[]} => a scenario
{"peers":[{"host":"a.test","port":1,"proto":"h2","answers":[{"path":"*","status":599,"fields":[["a","b"]]}],"acts":[{"kind":"altframe","value":"h2=\":1\"","conn":1},{"kind":"goaway","after":1,"last":1}]}],"channels":[]} => a scenario
{"peers":[],"channels":[{"calls":[{"call":"submit","url":"http://a/","site":"https://b.test","deadline":1,"probe":true},{"call":"reprioritise","of":1,"urgency":7},{"call":"cancel","of":1}]}]} => a scenario
{"peers":[],"channels":[{"calls":[{"call":"resolved","host":"a.test","addresses":[]},{"call":"network_changed"},{"call":"until","moment":18446744073709551615}]}]} => a scenario"#;

/// Whether this is the fault's name, a space, and the path.
fn names(text: &str, fault: &str, path: &Octets) -> bool {
    match text.strip_prefix(fault) {
        Some(rest) => path.as_slice() == rest.as_bytes(),
        None => false,
    }
}

fn gives(alloc: Global, text: &str, what: &str) -> bool {
    match read_scenario(alloc, text.as_bytes()) {
        Ok(_) => what == "a scenario",
        Err(ScenarioFault::Unsupported(path)) => names(what, "Unsupported ", &path),
        Err(ScenarioFault::BadValue(path)) => names(what, "BadValue ", &path),
        Err(_) => false,
    }
}

#[test]
fn faults_are_named_with_their_paths(rt: HostRuntime) {
    for row in ROWS.lines() {
        let Some((text, what)) = row.split_once(" => ") else {
            return assert!(rt; false, "a row without a mark");
        };
        assert!(rt; gives(rt.alloc(), text, what), "{row}");
    }
}
