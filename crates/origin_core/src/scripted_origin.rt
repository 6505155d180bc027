// A scripted HTTP/1.1 origin.
ghost use Rattle.std.specs.Prelude.{◌≡◌, ◌≤◌, ℕ, List, [], length, drop, IfOk};
ghost use Rattle.plain_values.specs.Fronts.{IsFrontOf};
ghost use Rattle.net_base.specs.declared.peer.Peer.{Peer};
ghost use Rattle.origin_core.specs.ScriptedOrigin.{Puts, IsOriginAt, StepIs};

use crate::scripted_answer::answer_to;
use crate::scripted_request::{NextRequest, next_request};
use net_base::{NoMem, Octets, Peer};
use std::alloc::Global;

/// How far a scripted origin has come with what it received: how many octets of it were whole requests, and what it
/// put for them.
#[derive(Debug, Drop)]
pub struct ScriptedOrigin {
    answered: usize,
    put: Octets,
}

/// What the next request did.
#[derive(Clone, Copy)]
pub(crate) enum Step {
    Answered,
    Unfinished,
    Unreadable,
}

impl ScriptedOrigin {
    ghost use Rattle.origin_core.specs.ScriptedOrigin.{put_of};

    /// Nothing was received. It takes no memory.
    #[tactic(auto, using(crate::proofs::Origins::origin_new))]
    pub(crate) fn new() -> ScriptedOrigin
        ensures fresh { (peer : Peer) (input : List ℕ) → IsOriginAt peer input result }
        ensures empty { put_of result ≡ [] }
    {
        ScriptedOrigin {
            answered: 0,
            put: Octets::new(),
        }
    }

    /// All that was put.
    pub(crate) fn put(&self) -> &[u8]
        ensures { result.now ≡ put_of self.now }
    {
        self.put.as_slice()
    }

    /// Puts the answers to the whole requests that came, and tells whether it is over. After `NoMem` some of them may
    /// stand already.
    #[tactic(auto, using(plain_values::proofs::Fronts::front_same, plain_values::proofs::Fronts::front_on, crate::proofs::Origins::puts_from))]
    pub(crate) fn answer(&mut self, alloc: Global, peer: &Peer, input: &[u8]) -> Result<bool, NoMem>
        requires { IsOriginAt peer.now input.now self.old }
        ensures puts { IfOk result (Puts peer.now input.now (put_of self.new)) }
        ensures at { IsOriginAt peer.now input.now self.new }
        ensures front { IsFrontOf (put_of self.old) (put_of self.new) }
    {
        loop {
            match self.step(alloc, peer, input)? {
                Step::Answered => {}
                Step::Unfinished => return Ok(false),
                Step::Unreadable => return Ok(true),
            }
        }
    }

    /// Puts the answer to the next request, where it is whole.
    #[tactic(auto, using(plain_values::proofs::Fronts::front_same, plain_values::proofs::Fronts::front_more))]
    fn step(&mut self, alloc: Global, peer: &Peer, input: &[u8]) -> Result<Step, NoMem>
        requires { IsOriginAt peer.now input.now self.old }
        ensures step { IfOk result (StepIs input.now self.old self.new) }
        ensures at { IsOriginAt peer.now input.now self.new }
        ensures front { IsFrontOf (put_of self.old) (put_of self.new) }
    {
        match next_request(alloc, behind(input, self.answered))? {
            NextRequest::Unfinished => Ok(Step::Unfinished),
            NextRequest::Unreadable => Ok(Step::Unreadable),
            NextRequest::Whole(asked, n) => {
                let text = answer_to(alloc, peer.answers.as_slice(), &asked)?;
                self.put.extend(alloc, text.as_slice())?;
                self.answered += n;
                Ok(Step::Answered)
            }
        }
    }
}

/// The octets from an index on.
fn behind(octets: &[u8], at: usize) -> &[u8]
    requires { at ≤ length octets.now }
    ensures { result.now ≡ drop at octets.now }
{
    &octets[at..]
}
