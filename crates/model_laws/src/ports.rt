// What a port promises can be kept, and what it keeps without memory.
ghost use Rattle.model_laws.specs.PortLaws.{EachCallHasAnAnswer, WhatLeavesNoneChangesNothing};

/// At each port, at each moment, each call whose conditions hold has an answer that the port may give. Numbers have no end here.
pub fn each_call_has_an_answer()
    ensures { EachCallHasAnAnswer }
{}

/// Over a port that brings entries of its caller and of the pool alone, a call that leaves no entry leaves everything as it was.
#[tactic(auto, using(crate::proofs::AnswerLemmas::what_leaves_none_changes_nothing))]
pub fn what_leaves_none_changes_nothing()
    ensures { WhatLeavesNoneChangesNothing }
{}
