// Readiness, the generations that have it (what is installed, and what was installed before it), views, and the outcome of a claim or an apply.
// Of the counters it knows the delivery number alone; nothing of the current head or of waiters.
#![tactic(auto)]

use head_count::Seq;
use head_values::{BalSkip, CarryOutcome, Link, ReadAnchor};

pub mod delta_snapshot;
pub mod head_lifecycle;

// From delta_snapshot.rs. One generation stands for the cache's slot and for head_lifecycle.rs's `InstalledGeneration` and `PreviousGeneration`, since only an
// apply makes one.

// `handle` names the host's hub; `seq` is the delivery number of the head that the apply settled, which the Rust does not keep.
#[derive(Clone, Copy)]
pub struct Generation {
    pub anchor: ReadAnchor,
    pub handle: u64,
    pub seq: Seq,
    pub readiness: HeadReadiness,
}

// From head_lifecycle.rs.

#[derive(Clone, Copy, PartialEq, Eq)]
pub enum HeadCold {
    Unprepared,
    Superseded,
    Undelivered,
    Abandoned,
    Settled(Link, BalSkip),
}

// Document 01 asks for this form: the cold case holds the reason.
#[derive(Clone, Copy, PartialEq, Eq)]
pub enum HeadReadiness {
    Ready,
    Cold(HeadCold),
}

// Where a view's handle comes from. A generation's source has the delivery number under which it settled; nothing else settled, so nothing else has one.
#[derive(Clone, Copy)]
pub enum Source {
    Installed(Seq),
    Provisional,
    Previous(Seq),
    Spare,
}

#[derive(Clone, Copy)]
pub struct HeadView {
    pub source: Source,
    pub handle: u64,
    pub readiness: HeadReadiness,
}

#[derive(Clone, Copy)]
pub enum HeadOutcome {
    Settled(CarryOutcome),
    AlreadySettled,
    InFlight,
    Superseded(ReadAnchor),
    Foreign(ReadAnchor, ReadAnchor),
}
