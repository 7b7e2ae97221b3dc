// An attempt to prepare a head and its one end, and the waiters that the end wakes.
// Knows nothing of heads, nor of which calls end an attempt.
#![tactic(auto)]

use head_count::Epoch;
use head_values::ReadAnchor;

pub mod head_lifecycle;

// From head_lifecycle.rs.

// The Rust's `Option<HeadCompletion>`: an attempt that has not ended is open. One enum, since an end is handed in too: one without `Open` would ask more of a caller.
#[derive(Clone, Copy)]
pub enum HeadCompletion {
    Open,
    Settled,
    Superseded,
    Abandoned,
}

#[derive(Clone, Copy)]
pub struct ClaimAttempt {
    pub epoch: Epoch,
    pub end: HeadCompletion,
}

// Document 01's small structs, each with an enum of its four cases. A parked waiter needs no anchor: it waits on the current preparation.
#[derive(Clone, Copy, Default)]
pub enum Waiter {
    #[default]
    Free,
    Parked,
    Abandoned(ReadAnchor),
    Ended(ReadAnchor),
}

#[derive(Clone, Copy, Default)]
pub struct WaiterSlot {
    pub waiter: Waiter,
}
