// Scripted peers.
ghost use Rattle.std.specs.Prelude.{◌≡◌, IfOk, codes, []};
ghost use Rattle.serde_json.specs.View.{view};
ghost use Rattle.scenario_walk.specs.Faults.{Gives, optional, list};
ghost use Rattle.scenario_text.specs.Peers as spec;

use crate::acts::ActObject;
use crate::answers::AnswerObject;
use net_base::{
    Answers, Names, NoMem, Octets, Origin, Peer, PeerActs, PlainValue, Proto, Scheme, authority,
};
use scenario_walk::{
    Address, At, Flag, Host, ListOf, Name, ProtoWord, Reads, ScenarioFault, Whole, only, optional,
    required,
};
use std::alloc::Global;

const PEER_NAMES: [&str; 8] = [
    "host", "port", "secure", "proto", "names", "address", "answers", "acts",
];

/// How the https origin of a host and a port is written behind `https://`.
fn https_authority(alloc: Global, host: &Octets, port: u16) -> Result<Octets, NoMem>
    ensures { IfOk result (λ text. text ≡ spec.https_authority host.now port) }
{
    authority(
        alloc,
        &Origin {
            scheme: Scheme::Https,
            host: host.copy(alloc)?,
            port,
        },
    )
}

/// A scripted peer.
#[derive(Drop)]
pub(crate) struct PeerObject;

impl Reads<Peer> for PeerObject {
    ghost reads = { λ _. spec.peer };

    fn read(&self, alloc: Global, at: &At) -> Result<Peer, ScenarioFault> {
        only(alloc, at, &PEER_NAMES)?;
        let host = required(alloc, at, "host", &Host)?;
        let port = required(
            alloc,
            at,
            "port",
            &Whole {
                least: 1,
                most: 65535,
            },
        )?;
        let secure = optional(alloc, at, "secure", false, &Flag)?;
        let proto = optional(alloc, at, "proto", Proto::H1, &ProtoWord)?;
        let names = ListOf {
            most: 100,
            item: Name,
        };
        let names = optional(alloc, at, "names", Names::new(), &names)?;
        let address = optional(alloc, at, "address", [0; 16], &Address)?;
        let answers = ListOf {
            most: 1000,
            item: AnswerObject,
        };
        let answers = optional(alloc, at, "answers", Answers::new(), &answers)?;
        let acts = peer_acts(alloc, at, &host, port, proto)?;
        Ok(Peer {
            host,
            port,
            secure,
            proto,
            names,
            address,
            answers,
            acts,
        })
    }
}

/// The acts of a peer.
fn peer_acts(
    alloc: Global,
    at: &At,
    host: &Octets,
    port: u16,
    proto: Proto,
) -> Result<PeerActs, ScenarioFault>
    ensures { Gives result (optional (codes "acts") [] (list 100 (spec.peer_act proto (spec.https_authority host.now port))) at.now.path (view at.now.value.now)) }
{
    let authority = https_authority(alloc, host, port)?;
    let item = ActObject {
        proto,
        authority: authority.as_slice(),
    };
    optional(
        alloc,
        at,
        "acts",
        PeerActs::new(),
        &ListOf { most: 100, item },
    )
}
