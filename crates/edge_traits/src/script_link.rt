// A link that plays a script.
ghost use Rattle.std.specs.Prelude.{◌≡◌, ◌≤◌, ◌<◌, ◌+◌, length, take, drop, min, Some, None, IfOk};
ghost use Rattle.edge_traits.specs.Counted.{ends_after};

use crate::book_links::{NO_TALLY, Tally};
use crate::dialer::MOST_OCTETS;
use crate::link::{Link, LinkRead, LinkWrite};
use crate::link_step::{LinkStep, LinkSteps};
use crate::octet_copy::put_front;
use net_base::{ConnNo, NoMem};
use std::alloc::Global;

/// A link that plays a script and keeps what goes over it. A write takes its whole piece, but fails at the calls whose
/// numbers were given; one for which there is no memory isn't counted.
#[derive(Drop)]
pub struct ScriptLink {
    steps: LinkSteps,
    at: ScriptPlace,
    write_fails: Vec<u64>,
    writes: u64,
    written: Vec<u8>,
    received: Vec<u8>,
    pub(crate) tally: Tally,
    conn: Option<ConnNo>,
    pub(crate) allowance: u64,
    ghost within: { length received.items ≤ allowance },
    ghost fits: { length written.items ≤ 18446744073709551615 },
}

impl ScriptLink {
    ghost use Rattle.edge_traits.specs.Script.{link_view, script_state, new_link, new_script};

    /// A link that no dial gave, so it has no place. It gives at most `MOST_OCTETS` octets.
    pub fn build(alloc: Global, steps: LinkSteps, write_fails: &[u64]) -> Result<ScriptLink, NoMem>
        ensures view { IfOk result (λ it. link_view it ≡ new_link None MOST_OCTETS) }
        ensures script { IfOk result (λ it. script_state it ≡ new_script steps write_fails.now) }
    {
        let write_fails = Vec::from_slice(alloc, write_fails)?;
        Ok(ScriptLink::at_place(alloc, steps, write_fails, None, MOST_OCTETS))
    }

    /// A link at its place, with what it may give.
    pub(crate) fn at_place(
        alloc: Global,
        steps: LinkSteps,
        write_fails: Vec<u64>,
        conn: Option<ConnNo>,
        allowance: u64,
    ) -> ScriptLink
        ensures view { link_view result ≡ new_link conn allowance }
        ensures script { script_state result ≡ new_script steps write_fails.items }
    {
        ScriptLink {
            steps,
            at: ScriptPlace { step: 0, offset: 0 },
            write_fails,
            writes: 0,
            written: Vec::new(alloc),
            received: Vec::new(alloc),
            tally: NO_TALLY,
            conn,
            allowance,
        }
    }

    /// What was written and what was received.
    pub(crate) fn into_bytes(self) -> (Vec<u8>, Vec<u8>)
        ensures written { (link_view self).written ≡ Some result.0.items }
        ensures received { (link_view self).received ≡ Some result.1.items }
    {
        (self.written, self.received)
    }
}

impl Link for ScriptLink {
    ghost use Rattle.std.specs.Prelude.{◌⊎◌};
    ghost use Rattle.edge_traits.specs.Links.{LinkReads, LinkWrites, LinkKeeps};
    ghost use Rattle.edge_traits.specs.Script.{link_view, link_within, script_state, ScriptReads, ScriptWrites};

    ghost seen = { link_view };

    ghost within = { link_within };

    fn read(&mut self, _alloc: Global, buf: &mut [u8]) -> LinkRead
        requires { 0 < length buf.old }
        ensures answer { LinkReads (link_view self.old) (length buf.old) buf.new result (link_view self.new) }
        ensures keeps { LinkKeeps (link_view self.old) (link_view self.new) }
        ensures used_up { (link_view self.old).gave ≡ (link_view self.old).allowance → result ≡ LinkRead.End }
        ensures exact { ScriptReads (link_view self.old).allowance (link_view self.old).gave (script_state self.old) (script_state self.new) (length buf.old) buf.new result }
    {
        let left = self.allowance - self.received.len() as u64;
        if left == 0 {
            self.tally.ends = self.tally.ends.saturating_add(1);
            return LinkRead::End;
        }
        match self.steps.as_slice().get(self.at.step) {
            None => {
                self.tally.read_quiets = self.tally.read_quiets.saturating_add(1);
                LinkRead::Quiet
            }
            Some(LinkStep::Quiet) => {
                self.at = self.at.next();
                self.tally.read_quiets = self.tally.read_quiets.saturating_add(1);
                LinkRead::Quiet
            }
            Some(LinkStep::End) => {
                self.tally.ends = self.tally.ends.saturating_add(1);
                LinkRead::End
            }
            Some(LinkStep::Fail) => {
                self.at = self.at.next();
                self.tally.faults = self.tally.faults.saturating_add(1);
                LinkRead::Failed
            }
            Some(LinkStep::Give(octets)) => {
                let rest = rest_from(octets.as_slice(), self.at.offset);
                let piece = front_of(rest, buf.len(), left);
                if self.received.extend_from_slice(piece).is_err() {
                    return LinkRead::NoMem;
                }
                put_front(buf, piece);
                let n = piece.len();
                self.at = self.at.after(rest.len(), n);
                self.tally.ends = ends_after_read(self.tally.ends, n);
                LinkRead::Got(n)
            }
        }
    }

    fn write(&mut self, _alloc: Global, piece: &[u8]) -> LinkWrite
        requires { 0 < length piece.now }
        ensures answer { LinkWrites (link_view self.old) piece.now result (link_view self.new) }
        ensures keeps { LinkKeeps (link_view self.old) (link_view self.new) }
        ensures full { (link_view self.old).took ≡ 18446744073709551615 → (result ≡ LinkWrite.Failed) ⊎ (result ≡ LinkWrite.NoMem) }
        ensures exact { ScriptWrites (script_state self.old) (length piece.now) result (script_state self.new) }
    {
        let call = self.writes.saturating_add(1);
        if self.write_fails.contains(&call) {
            self.writes = call;
            self.tally.faults = self.tally.faults.saturating_add(1);
            return LinkWrite::Failed;
        }
        if self.written.extend_from_slice(piece).is_err() {
            return LinkWrite::NoMem;
        }
        self.writes = call;
        LinkWrite::Took(piece.len())
    }
}

/// Where a script stands: at this step, after so many octets of it.
#[derive(Clone, Copy)]
struct ScriptPlace {
    step: usize,
    offset: usize,
}

impl ScriptPlace {
    /// The front of the next step.
    fn next(self) -> ScriptPlace
        requires { self.step < usize.MAX }
        ensures { result ≡ record { step = self.step + 1; offset = 0 } }
    {
        ScriptPlace {
            step: self.step + 1,
            offset: 0,
        }
    }

    /// After n octets of those that are left of the step, the front of the next one where they are all.
    fn after(self, left: usize, n: usize) -> ScriptPlace
        requires step { self.step < usize.MAX }
        requires offset { self.offset + left ≤ usize.MAX }
        requires within { n ≤ left }
        ensures whole { n ≡ left → result ≡ record { step = self.step + 1; offset = 0 } }
        ensures part { n < left → result ≡ record { step = self.step; offset = self.offset + n } }
    {
        if n == left {
            return self.next();
        }
        ScriptPlace {
            step: self.step,
            offset: self.offset + n,
        }
    }
}

/// The count of ends after n octets were got.
fn ends_after_read(ends: u64, n: usize) -> u64
    ensures { result ≡ ends_after ends n }
{
    if n == 0 { ends.saturating_add(1) } else { ends }
}

/// What is left of the octets after so many.
fn rest_from(octets: &[u8], offset: usize) -> &[u8]
    ensures { result.now ≡ drop offset octets.now }
{
    if offset < octets.len() {
        &octets[offset..]
    } else {
        &[]
    }
}

/// As many of the octets as both bounds allow.
fn front_of(octets: &[u8], size: usize, left: u64) -> &[u8]
    ensures { result.now ≡ take (min (min (length octets.now) size) left) octets.now }
{
    let most = usize::try_from(left).unwrap_or(usize::MAX);
    &octets[..octets.len().min(size).min(most)]
}
