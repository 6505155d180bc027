// Scripted answers.
ghost use Rattle.scenario_walk.specs.Faults.{Gives};
ghost use Rattle.scenario_text.specs.Peers as spec;

use net_base::{Answer, AnswerBody, Fields, Octets};
use scenario_walk::{
    AnyListOf, At, Given, GoodField, Reads, ScenarioFault, Text, Whole, bad, only, optional,
    required,
};
use std::alloc::Global;

const ANSWER_NAMES: [&str; 6] = ["path", "authority", "status", "text", "size", "fields"];

/// An answer of a scripted peer.
#[derive(Drop)]
pub(crate) struct AnswerObject;

impl Reads<Answer> for AnswerObject {
    ghost reads = { λ _. spec.answer };

    fn read(&self, alloc: Global, at: &At) -> Result<Answer, ScenarioFault> {
        only(alloc, at, &ANSWER_NAMES)?;
        let path = required(alloc, at, "path", &Text)?;
        let authority = optional(alloc, at, "authority", None, &Given(Text))?;
        let status = optional(
            alloc,
            at,
            "status",
            200u16,
            &Whole {
                least: 200,
                most: 599,
            },
        )?;
        let text = optional(alloc, at, "text", None, &Given(Text))?;
        let size = optional(
            alloc,
            at,
            "size",
            None,
            &Given(Whole {
                least: 0u32,
                most: 2097152,
            }),
        )?;
        let fields = optional(
            alloc,
            at,
            "fields",
            Fields::new(),
            &AnyListOf { item: GoodField },
        )?;
        let body = answer_body(alloc, at, text, size)?;
        Ok(Answer {
            path,
            authority,
            status,
            body,
            fields,
        })
    }
}

/// The octets of the text, or so many octets `x`; not both.
fn answer_body(
    alloc: Global,
    at: &At,
    text: Option<Octets>,
    size: Option<u32>,
) -> Result<AnswerBody, ScenarioFault>
    ensures { Gives result (spec.answer_body at.now.path text size) }
{
    match (text, size) {
        (None, None) => Ok(AnswerBody::Text(Octets::new())),
        (Some(text), None) => Ok(AnswerBody::Text(text)),
        (None, Some(n)) => Ok(AnswerBody::Size(n)),
        (Some(_), Some(_)) => Err(bad(alloc, at.path.as_slice())),
    }
}
