// The scripts of a dialer's links.

use crate::link_step::{CallNos, LinkSteps};
use net_base::{Identity, Listed};

/// What one dial gives: whom it shows, what its link plays, and which of the link's writes fail.
#[derive(Debug, Drop)]
pub struct ScriptPart {
    pub identity: Identity,
    pub steps: LinkSteps,
    pub write_fails: CallNos,
}

/// The parts of a dialer, one for each dial that doesn't fail.
pub type ScriptLinks = Listed<ScriptPart>;
