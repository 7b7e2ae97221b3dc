// Anchors and when two are equal, the link test, prepared lists, the outcome of an apply; and the words and the kinds of values that answers say.
// Knows nothing of a head, a counter, a waiter or a line of text.
#![tactic(auto)]

use hash::Hash;

pub mod delta_snapshot;
pub mod read_hub;
pub mod storage_memo;

// From bal_prefetch.rs.

// The Rust's `Option<BalSkip>`; a number stands for the text of an error. One enum, since document 01 lists none among the skips.
#[derive(Clone, Copy, PartialEq, Eq)]
pub enum BalSkip {
    Nothing,
    NoHash,
    Rpc(u64),
    Decode(u64),
}

// From read_hub.rs.

// The Rust's `Option<CarryRefusal>`: linked, or what is wrong with the link. One enum, since document 01 lists the five words in a row.
#[derive(Clone, Copy, PartialEq, Eq)]
pub enum Link {
    Linked,
    NoParent,
    NotConsecutive,
    HashUnknown,
    HashMismatch,
}

// A list that was prepared for an anchor. Its values stay with the host.
#[derive(Clone, Copy)]
pub struct PreparedBal {
    pub anchor: ReadAnchor,
    pub skip: BalSkip,
}

// The number that `Carried` holds is the host's. The Rust's enum, and document 01's `carried` and `cold`: a cold outcome is no error.
#[derive(Clone, Copy)]
pub enum CarryOutcome {
    Carried(u64),
    Cold(Link, BalSkip),
}

// From storage_memo.rs.

#[derive(Clone, Copy, PartialEq, Eq)]
pub struct ReadAnchor {
    pub number: u64,
    pub hash: Option<Hash>,
}
