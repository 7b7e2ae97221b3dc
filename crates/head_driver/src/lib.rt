// The driver: the lifecycle with the sixteen waiters, a new one, the end of a preparation, what a call answers, and the reply that it gives.
// Knows nothing of the calls, nor of lines.
#![tactic(auto)]

use head_attempt::{HeadCompletion, WaiterSlot};
use head_count::{Epoch, HeadStats, Seq};
use head_current::DeltaReport;
use head_life::HeadLifecycle;
use head_ready::{HeadOutcome, HeadView};
use head_values::{Link, ReadAnchor};

pub mod head_lifecycle;

// From head_lifecycle.rs: `BalHeadDriver`, and what its calls answer. A call takes the driver by value and gives it back with its answer.

#[derive(Clone, Copy, Default)]
pub struct Driver {
    pub life: HeadLifecycle,
    pub waiters: [WaiterSlot; 16],
}

#[derive(Clone, Copy)]
pub enum Answer {
    Ticket(Seq),
    Claimed(Epoch),
    Done,
    Outcome(HeadOutcome),
    View(HeadView),
    Parked,
    Completion(HeadCompletion),
    Link(Link),
    Report(Option<DeltaReport>),
    Stats(HeadStats),
    Heads(Option<ReadAnchor>, Option<ReadAnchor>, Option<ReadAnchor>),
    ListDisagrees,
    WaiterAbove15,
    WaiterNotFree,
    WaiterFree,
}

// A call's reply. A line's (`Turn`) and a printed line's (`Printed`) are types of their own: what each holds beside the driver is told by its name.
#[derive(Clone, Copy)]
pub struct Reply {
    pub driver: Driver,
    pub answer: Answer,
}
