// Every call as a value, and which of them their input alone turns away.
// Knows nothing of the driver, nor of lines.
#![tactic(auto)]

use hash::Hash;
use head_current::{HeadTicket, PrepareClaim};
use head_values::{PreparedBal, ReadAnchor};

pub mod head_lifecycle;

// The calls in demand 3's order. The sheet, which changes nothing, is a line's and not a call's here.
#[derive(Clone, Copy)]
pub enum Call {
    Deliver(ReadAnchor, Hash, u64),
    Claim(HeadTicket),
    Release(PrepareClaim),
    Apply(HeadTicket, PreparedBal, u64, u64, u64),
    Snapshot(ReadAnchor, u64),
    Wait(u64, ReadAnchor, u64),
    Resume(u64, u64),
    Completion(ReadAnchor),
    Link(Option<ReadAnchor>, ReadAnchor, Hash),
    Report,
    Stats,
    Heads,
}

// Why a call is turned away by its input alone: the two kinds, each a refusal.
#[derive(Clone, Copy)]
pub enum InputRefusal {
    ListDisagrees,
    WaiterAbove15,
}
