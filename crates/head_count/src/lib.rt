// Delivery numbers, epochs and the eight counters.
// Knows nothing of heads, of attempts or of waiters.
#![tactic(auto)]

pub mod head_lifecycle;

// From head_lifecycle.rs.

// A delivery number: the Rust's `seq`. A type of its own, so that it is never taken where a claim epoch is asked for.
#[derive(Clone, Copy, PartialEq, Eq, Default)]
pub struct Seq(pub u64);

// A claim epoch: the Rust's `epoch`.
#[derive(Clone, Copy, PartialEq, Eq, Default)]
pub struct Epoch(pub u64);

#[derive(Clone, Copy)]
pub enum Counter {
    Delivered,
    Repeated,
    Superseded,
    Settled,
    AlreadyCurrent,
    Discarded,
    ReadyViews,
    ColdViews,
}

#[derive(Clone, Copy, Default)]
pub struct HeadStats {
    pub delivered: u64,
    pub repeated: u64,
    pub superseded: u64,
    pub settled: u64,
    pub already_current: u64,
    pub discarded: u64,
    pub ready_views: u64,
    pub cold_views: u64,
}
