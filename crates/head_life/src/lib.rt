// The head lifecycle: the current head, what is installed, what was installed before it, and the counters; and what a call makes of them.
// Knows nothing of waiters, of which call answers what, or of lines.
#![tactic(auto)]

use head_count::{Epoch, HeadStats, Seq};
use head_current::{CurrentHead, HeadDelivery};
use head_ready::{Generation, HeadOutcome};
use head_values::ReadAnchor;

pub mod head_lifecycle;

// From head_lifecycle.rs.

#[derive(Clone, Copy, Default)]
pub struct HeadLifecycle {
    pub current: CurrentHead,
    pub superseded: Option<ReadAnchor>,
    pub installed: Option<Generation>,
    pub previous: Option<Generation>,
    pub seq: Seq,
    pub claim_epoch: Epoch,
    pub stats: HeadStats,
}

// What an apply goes on with: the head's own delivery, or the answer that turns it away.
#[derive(Clone, Copy)]
pub enum ApplyPlan {
    Refused(HeadOutcome),
    Admitted(HeadDelivery),
}
