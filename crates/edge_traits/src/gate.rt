// A gate that actors pass.
use net_base::CallerNo;
use std::sync::Wait;

/// Where an actor stands at a gate: before a turn or after it.
#[derive(Clone, Copy, Debug, PartialEq, Eq)]
pub enum Point {
    Before,
    After,
}

/// A gate, which actors pass before and after each turn and at which they rest after an idle one. It may hold them for
/// as long as it likes, so a run over each schedule can be tried.
pub trait Gate: Drop {
    /// An actor is at this point of a turn.
    fn point<R: Wait>(&self, rt: &R, who: CallerNo, at: Point);

    /// An actor had an idle turn.
    fn rest<R: Wait>(&self, rt: &R, who: CallerNo);
}

/// A gate that holds nobody.
#[derive(Debug, Drop)]
pub struct OpenGate;

impl Gate for OpenGate {
    fn point<R: Wait>(&self, _rt: &R, _who: CallerNo, _at: Point) {}

    fn rest<R: Wait>(&self, _rt: &R, _who: CallerNo) {}
}
