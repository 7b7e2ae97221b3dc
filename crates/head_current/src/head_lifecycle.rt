// From head_lifecycle.rs: the methods of `HeadDelivery` and `CurrentHead`, each by value.
ghost use Rattle.std.specs.Prelude.{◌≡◌, Some};
ghost use Rattle.head_attempt.specs.Said.{completion_said};
ghost use Rattle.head_current.specs.Heads.{anchor_of, current_report, delivery, has_ticket, is_preparing, is_unsettled, preparing_at, published};
ghost use Rattle.head_current.specs.Parts.{settled_of};
ghost use Rattle.head_current.specs.Said.{report_said};
ghost use Rattle.head_current.specs.declared.CurrentHead.{CurrentHead};
ghost use Rattle.head_current.specs.Moves.{claimed_head, published_abandonment, released_head, settled_head};

use crate::{
    CurrentHead, DeltaReport, HeadDelivery, HeadTicket, PrepareClaim, SettledHead, UnsettledHead,
};
use head_attempt::{ClaimAttempt, HeadCompletion};
use head_count::Epoch;
use head_values::ReadAnchor;

impl HeadDelivery {
    // Whether the ticket is this delivery's.
    #[tactic(auto, unfolding(crate::specs::Heads::has_ticket, head_values::specs::Anchors::same_anchor, hash::specs::Hashes::same_hash, head_count::specs::Counters::same_seq))]
    pub fn has_ticket(self, ticket: HeadTicket) -> bool
        ensures { result ≡ has_ticket self ticket }
    {
        self.anchor == ticket.anchor && self.seq == ticket.seq
    }

    // The head that an apply of this delivery leaves.
    pub(crate) fn settled(self, report: DeltaReport, attempt: ClaimAttempt) -> CurrentHead
        ensures { result ≡ CurrentHead.Settled (settled_of self (Some report) attempt) }
    {
        CurrentHead::Settled(SettledHead {
            delivery: self,
            report: Some(report),
            attempt,
        })
    }
}

impl CurrentHead {
    #[tactic(auto, unfolding(crate::specs::Heads::delivery))]
    pub fn delivery(self) -> Option<HeadDelivery>
        ensures { result ≡ delivery self }
    {
        match self {
            CurrentHead::Absent => None,
            CurrentHead::Unclaimed(u) | CurrentHead::Preparing(u) => Some(u.delivery),
            CurrentHead::Settled(s) => Some(s.delivery),
        }
    }

    #[tactic(auto, unfolding(crate::specs::Heads::anchor_of))]
    pub fn anchor(self) -> Option<ReadAnchor>
        ensures { result ≡ anchor_of (delivery self) }
    {
        self.delivery().map(|held| held.anchor)
    }

    // The Rust's `provisional().is_some()`.
    #[tactic(auto, unfolding(crate::specs::Heads::is_unsettled))]
    pub fn is_unsettled(self) -> bool
        ensures { result ≡ is_unsettled self }
    {
        matches!(self, CurrentHead::Unclaimed(_) | CurrentHead::Preparing(_))
    }

    #[tactic(auto, unfolding(crate::specs::Heads::is_preparing))]
    pub fn is_preparing(self) -> bool
        ensures { result ≡ is_preparing self }
    {
        matches!(self, CurrentHead::Preparing(_))
    }

    // Whether a wait at that anchor has a preparation to wait on: the test of the Rust's `registration`.
    #[tactic(auto, unfolding(crate::specs::Heads::preparing_at, head_values::specs::Anchors::same_anchor, hash::specs::Hashes::same_hash))]
    pub fn preparing_at(self, anchor: ReadAnchor) -> bool
        ensures { result ≡ preparing_at self anchor }
    {
        let CurrentHead::Preparing(u) = self else {
            return false;
        };
        u.delivery.anchor == anchor
    }

    // The end that the current attempt has published.
    #[tactic(auto, unfolding(crate::specs::Heads::published))]
    pub fn published(self) -> HeadCompletion
        ensures { completion_said result ≡ completion_said (published self) }
    {
        match self {
            CurrentHead::Absent => HeadCompletion::Open,
            CurrentHead::Unclaimed(u) | CurrentHead::Preparing(u) => u.attempt.end,
            CurrentHead::Settled(s) => s.attempt.end,
        }
    }

    #[tactic(auto, unfolding(crate::specs::Heads::current_report))]
    pub fn report(self) -> Option<DeltaReport>
        ensures { report_said result ≡ report_said (current_report self) }
    {
        match self {
            CurrentHead::Absent | CurrentHead::Unclaimed(_) | CurrentHead::Preparing(_) => None,
            CurrentHead::Settled(s) => s.report,
        }
    }

    // Whether an unclaimed head's attempt has ended abandoned, so that a settle needs a new one.
    #[tactic(auto, unfolding(crate::specs::Moves::published_abandonment, crate::specs::Moves::is_abandoned))]
    pub fn published_abandonment(self) -> bool
        ensures { result ≡ published_abandonment self }
    {
        let CurrentHead::Unclaimed(u) = self else {
            return false;
        };
        matches!(u.attempt.end, HeadCompletion::Abandoned)
    }

    #[tactic(auto, unfolding(crate::specs::Moves::claimed_head))]
    pub fn claimed(self, epoch: Epoch) -> CurrentHead
        ensures { result ≡ claimed_head self epoch }
    {
        let CurrentHead::Unclaimed(u) = self else {
            return self;
        };
        CurrentHead::Preparing(UnsettledHead {
            attempt: ClaimAttempt::minted(epoch),
            ..u
        })
    }

    // A release never rewrites the end of an attempt that it does not own.
    #[tactic(auto, unfolding(crate::specs::Moves::released_head, crate::specs::Moves::owned_by, head_count::specs::Counters::same_epoch, head_count::specs::Counters::same_seq))]
    pub fn released(self, owner: PrepareClaim) -> CurrentHead
        ensures { result ≡ released_head self owner }
    {
        match self {
            CurrentHead::Preparing(u)
                if u.delivery.seq == owner.seq && u.attempt.epoch == owner.epoch => {
                CurrentHead::Unclaimed(UnsettledHead {
                    attempt: u.attempt.publish(HeadCompletion::Abandoned),
                    ..u
                })
            }
            _ => self,
        }
    }

    // The settled head, with the report of the apply that settled it. `epoch` is the one of a new attempt, where an abandoned one's end stays.
    #[tactic(auto, unfolding(crate::specs::Moves::settled_head, crate::specs::Moves::is_abandoned))]
    pub fn settled(self, epoch: Epoch, report: DeltaReport) -> CurrentHead
        ensures { result ≡ settled_head self epoch report }
    {
        match self {
            CurrentHead::Absent => self,
            CurrentHead::Unclaimed(u) if matches!(u.attempt.end, HeadCompletion::Abandoned) => {
                u.delivery.settled(report, ClaimAttempt::settled(epoch))
            }
            CurrentHead::Unclaimed(u) | CurrentHead::Preparing(u) => {
                u.delivery
                    .settled(report, u.attempt.publish(HeadCompletion::Settled))
            }
            CurrentHead::Settled(s) => {
                s.delivery
                    .settled(report, s.attempt.publish(HeadCompletion::Settled))
            }
        }
    }
}
