// From head_lifecycle.rs: delivery numbers, epochs and counters rise, and saturate; the count of a view.
ghost use Rattle.std.specs.Prelude.{◌≡◌};
ghost use Rattle.head_count.specs.Counters.{next_epoch, next_seq, raise, raise_if, record_view, up};

use crate::{Counter, Epoch, HeadStats, Seq};

// One more, and never above 2^64 - 1.
#[tactic(auto, unfolding(crate::specs::Counters::up))]
pub fn raised(n: u64) -> u64
    ensures { result ≡ up n }
{
    n.saturating_add(1)
}

// The same for each of document 01's two tuple structs: a trait for a line is no plainer.
impl Seq {
    #[tactic(auto, unfolding(crate::specs::Counters::next_seq))]
    pub fn next(self) -> Seq
        ensures { result ≡ next_seq self }
    {
        Seq(raised(self.0))
    }
}

impl Epoch {
    #[tactic(auto, unfolding(crate::specs::Counters::next_epoch))]
    pub fn next(self) -> Epoch
        ensures { result ≡ next_epoch self }
    {
        Epoch(raised(self.0))
    }
}

impl HeadStats {
    #[tactic(auto, unfolding(crate::specs::Counters::raise))]
    pub fn raise(mut self, counter: Counter) -> HeadStats
        ensures { result ≡ raise counter self }
    {
        match counter {
            Counter::Delivered => self.delivered = raised(self.delivered),
            Counter::Repeated => self.repeated = raised(self.repeated),
            Counter::Superseded => self.superseded = raised(self.superseded),
            Counter::Settled => self.settled = raised(self.settled),
            Counter::AlreadyCurrent => self.already_current = raised(self.already_current),
            Counter::Discarded => self.discarded = raised(self.discarded),
            Counter::ReadyViews => self.ready_views = raised(self.ready_views),
            Counter::ColdViews => self.cold_views = raised(self.cold_views),
        }
        self
    }

    #[tactic(auto, unfolding(crate::specs::Counters::raise_if))]
    pub fn raise_if(self, test: bool, counter: Counter) -> HeadStats
        ensures { result ≡ raise_if test counter self }
    {
        if test { self.raise(counter) } else { self }
    }
}

// A view was answered, ready or cold: the counter rises behind the reference. The Rust's `HeadLifecycle::record_view`.
#[tactic(auto, unfolding(crate::specs::Counters::record_view, crate::specs::Counters::raise))]
pub fn record_view(stats: &mut HeadStats, ready: bool)
    ensures { stats.new ≡ record_view ready stats.old }
{
    if ready {
        stats.ready_views = raised(stats.ready_views);
    } else {
        stats.cold_views = raised(stats.cold_views);
    }
}
