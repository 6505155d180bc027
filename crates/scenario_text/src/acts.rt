// The acts of scripted peers.
ghost use Rattle.std.specs.Prelude.{◌≡◌, ◌∷◌, map, codes};
ghost use Rattle.serde_json.specs.View.{view};
ghost use Rattle.scenario_walk.specs.Faults.{Gives};
ghost use Rattle.scenario_text.specs.Peers as spec;
ghost use Rattle.scenario_walk.specs.Values.{word, text_that};

use crate::limits::MOST_STREAM;
use net_base::{ActKind, ConnNo, Octets, PeerAct, Proto, StreamNo};
use scenario_walk::{
    At, Given, Reads, ScenarioFault, Whole, an_object, bad, only, optional, required, text_of,
};
use std::alloc::Global;

/// The kinds of act, by their words.
#[derive(Clone, Copy, Debug, PartialEq, Eq)]
pub(crate) enum ActWord {
    NoDial,
    Hold,
    Drop,
    Limit,
    Goaway,
    Refuse,
    AltFrame,
}

/// The kind that a word names.
fn act_word(word: &str) -> Option<ActWord>
    ensures { result ≡ spec.act_word word.now }
{
    if word == "nodial" {
        Some(ActWord::NoDial)
    } else if word == "hold" {
        Some(ActWord::Hold)
    } else if word == "drop" {
        Some(ActWord::Drop)
    } else if word == "limit" {
        Some(ActWord::Limit)
    } else if word == "goaway" {
        Some(ActWord::Goaway)
    } else if word == "refuse" {
        Some(ActWord::Refuse)
    } else if word == "altframe" {
        Some(ActWord::AltFrame)
    } else {
        None
    }
}

/// Whether a peer of this protocol may act so.
fn may_act(proto: Proto, word: ActWord) -> bool
    ensures { result ≡ spec.may_act proto word }
{
    match (proto, word) {
        (Proto::H2, _) => true,
        (Proto::H1, ActWord::NoDial) => true,
        (Proto::H1, ActWord::Hold) => true,
        (Proto::H1, ActWord::Drop) => true,
        (Proto::H1, _) => false,
    }
}

/// The word of a kind that a peer of this protocol may have.
#[derive(Drop)]
struct ActWordOf {
    proto: Proto,
}

impl Reads<ActWord> for ActWordOf {
    ghost reads = { λ it. word (spec.act_word_of it.proto) };

    fn read(&self, alloc: Global, at: &At) -> Result<ActWord, ScenarioFault> {
        let word = text_of(alloc, at)?;
        match act_word(word) {
            Some(kind) if may_act(self.proto, kind) => Ok(kind),
            _ => Err(bad(alloc, at.path.as_slice())),
        }
    }
}

/// The names of the members of an act.
fn act_names(word: ActWord) -> &'static [&'static str]
    ensures { map (λ name. name.now) result.now ≡ codes "kind" ∷ codes "conn" ∷ spec.members_of_act word }
{
    match word {
        ActWord::NoDial => &["kind", "conn"],
        ActWord::Hold => &["kind", "conn", "until"],
        ActWord::Drop => &["kind", "conn", "after"],
        ActWord::Limit => &["kind", "conn", "n"],
        ActWord::Goaway => &["kind", "conn", "after", "last"],
        ActWord::Refuse => &["kind", "conn", "nth"],
        ActWord::AltFrame => &["kind", "conn", "value"],
    }
}

/// How many requests or heads.
const REQUESTS: Whole<u32> = Whole {
    least: 0,
    most: 100000,
};

/// The value of an ALTSVC frame whose payload has at most 16384 octets.
#[derive(Drop)]
struct FrameValue<'p> {
    authority: &'p [u8],
}

impl<'p> Reads<Octets> for FrameValue<'p> {
    ghost reads = { λ it. text_that (spec.fits_frame it.authority.now) };

    fn read(&self, alloc: Global, at: &At) -> Result<Octets, ScenarioFault> {
        let value = text_of(alloc, at)?;
        if !fits_frame(self.authority, value.as_bytes()) {
            return Err(bad(alloc, at.path.as_slice()));
        }
        Ok(Octets::build(alloc, value.as_bytes())?)
    }
}

/// Whether two octets of length, `https://` with the authority, and the value are at most 16384 octets.
fn fits_frame(authority: &[u8], value: &[u8]) -> bool
    ensures { result ≡ spec.fits_frame authority.now value.now }
{
    authority.len() <= 16374 && value.len() <= 16374 - authority.len()
}

/// What an act of this kind does.
fn act_kind(
    alloc: Global,
    at: &At,
    word: ActWord,
    authority: &[u8],
) -> Result<ActKind, ScenarioFault>
    ensures { Gives result (spec.act_kind authority.now word at.now.path (view at.now.value.now)) }
{
    match word {
        ActWord::NoDial => Ok(ActKind::NoDial),
        ActWord::Hold => Ok(ActKind::Hold {
            until: required(alloc, at, "until", &REQUESTS)?,
        }),
        ActWord::Drop => Ok(ActKind::Drop {
            after: required(alloc, at, "after", &REQUESTS)?,
        }),
        ActWord::Limit => Ok(ActKind::Limit {
            n: required(
                alloc,
                at,
                "n",
                &Whole {
                    least: 0,
                    most: 4294967295,
                },
            )?,
        }),
        ActWord::Goaway => goaway(alloc, at),
        ActWord::Refuse => Ok(ActKind::Refuse {
            nth: required(alloc, at, "nth", &REQUESTS)?,
        }),
        ActWord::AltFrame => Ok(ActKind::AltFrame {
            value: required(alloc, at, "value", &FrameValue { authority })?,
        }),
    }
}

fn goaway(alloc: Global, at: &At) -> Result<ActKind, ScenarioFault>
    ensures { Gives result (spec.goaway at.now.path (view at.now.value.now)) }
{
    let after = required(alloc, at, "after", &REQUESTS)?;
    let last = required(
        alloc,
        at,
        "last",
        &Whole {
            least: 0,
            most: MOST_STREAM,
        },
    )?;
    Ok(ActKind::Goaway {
        after,
        last: StreamNo(last),
    })
}

/// An act of a peer that speaks this protocol and whose https origin has this authority.
#[derive(Drop)]
pub(crate) struct ActObject<'p> {
    pub(crate) proto: Proto,
    pub(crate) authority: &'p [u8],
}

impl<'p> Reads<PeerAct> for ActObject<'p> {
    ghost reads = { λ it. spec.peer_act it.proto it.authority.now };

    fn read(&self, alloc: Global, at: &At) -> Result<PeerAct, ScenarioFault> {
        an_object(alloc, at)?;
        let word = required(alloc, at, "kind", &ActWordOf { proto: self.proto })?;
        only(alloc, at, act_names(word))?;
        let conn = optional(
            alloc,
            at,
            "conn",
            None,
            &Given(Whole {
                least: 1,
                most: 4294967295,
            }),
        )?;
        let kind = act_kind(alloc, at, word, self.authority)?;
        Ok(PeerAct {
            conn: conn.map(ConnNo),
            kind,
        })
    }
}
