// From head_lifecycle.rs: the methods of `HeadLifecycle`. Each takes the lifecycle by value and gives the next one, beside its answer where it has one.
ghost use Rattle.std.specs.Prelude.{◌≡◌};
ghost use Rattle.head_attempt.specs.Said.{completion_said};
ghost use Rattle.head_life.specs.Apply.{plan_apply, previous_after, record_settle, settled_readiness};
ghost use Rattle.head_life.specs.Claim.{claim_life};
ghost use Rattle.head_life.specs.Completion.{completion_at};
ghost use Rattle.head_life.specs.Deliver.{deliver_life, new_head};
ghost use Rattle.head_life.specs.Release.{release_life};
ghost use Rattle.head_life.specs.Said.{Plans, Starts};
ghost use Rattle.head_life.specs.State.{counted, view_counted};
ghost use Rattle.head_life.specs.Views.{current_view, spare_view, view};
ghost use Rattle.head_ready.specs.Said.{view_said};

use crate::{ApplyPlan, HeadLifecycle};
use hash::Hash;
use head_attempt::{ClaimAttempt, HeadCompletion};
use head_count::head_lifecycle::record_view;
use head_count::{Counter, Epoch, Seq};
use head_current::{
    CurrentHead, DeltaReport, HeadDelivery, HeadTicket, PrepareClaim, SettledHead, UnsettledHead,
};
use head_ready::delta_snapshot::slot_anchor;
use head_ready::{Generation, HeadCold, HeadOutcome, HeadReadiness, HeadView, Source};
use head_values::{CarryOutcome, ReadAnchor};

// The head that a delivery makes: one whose anchor is installed is settled on the spot.
#[tactic(auto, unfolding(crate::specs::Deliver::new_head))]
pub(crate) fn new_head(anchor_installed: bool, delivery: HeadDelivery, cold: u64) -> CurrentHead
    ensures { result ≡ new_head anchor_installed delivery cold }
{
    if anchor_installed {
        CurrentHead::Settled(SettledHead {
            delivery,
            report: None,
            attempt: ClaimAttempt::settled(Epoch(0)),
        })
    } else {
        CurrentHead::Unclaimed(UnsettledHead {
            delivery,
            provisional: cold,
            attempt: ClaimAttempt::minted(Epoch(0)),
        })
    }
}

#[tactic(auto, unfolding(crate::specs::Apply::settled_readiness))]
pub fn settled_readiness(outcome: CarryOutcome) -> HeadReadiness
    ensures { result ≡ settled_readiness outcome }
{
    match outcome {
        CarryOutcome::Carried(_) => HeadReadiness::Ready,
        CarryOutcome::Cold(link, skip) => HeadReadiness::Cold(HeadCold::Settled(link, skip)),
    }
}

// The window of two anchors that can be read: an apply that does not carry makes it one.
#[tactic(auto, unfolding(crate::specs::Apply::previous_after))]
pub(crate) fn previous_after(
    installed: Option<Generation>,
    outcome: CarryOutcome,
) -> Option<Generation>
    ensures { result ≡ previous_after installed outcome }
{
    match outcome {
        CarryOutcome::Carried(_) => installed,
        CarryOutcome::Cold(_, _) => None,
    }
}

#[tactic(auto, unfolding(crate::specs::Views::spare_view, head_values::specs::Anchors::holds, head_values::specs::Anchors::same_anchor, hash::specs::Hashes::same_hash))]
pub(crate) fn spare_view(superseded: Option<ReadAnchor>, anchor: ReadAnchor, spare: u64) -> HeadView
    ensures { result ≡ spare_view superseded anchor spare }
{
    let reason = if superseded == Some(anchor) {
        HeadCold::Superseded
    } else {
        HeadCold::Undelivered
    };
    HeadView {
        source: Source::Spare,
        handle: spare,
        readiness: HeadReadiness::Cold(reason),
    }
}

#[tactic(auto, unfolding(crate::specs::Views::current_view, crate::specs::Views::provisional_view, head_values::specs::Anchors::same_anchor, hash::specs::Hashes::same_hash))]
pub(crate) fn current_view(current: CurrentHead, anchor: ReadAnchor, other: HeadView) -> HeadView
    ensures { result ≡ current_view current anchor other }
{
    match current {
        CurrentHead::Unclaimed(u) | CurrentHead::Preparing(u) if u.delivery.anchor == anchor =>
            HeadView {
                source: Source::Provisional,
                handle: u.provisional,
                readiness: HeadReadiness::Cold(HeadCold::Unprepared),
            },
        _ => other,
    }
}

impl HeadLifecycle {
    #[tactic(auto, unfolding(crate::specs::State::counted))]
    pub(crate) fn count(mut self, counter: Counter) -> HeadLifecycle
        ensures { result ≡ counted self counter }
    {
        self.stats = self.stats.raise(counter);
        self
    }

    // The next lifecycle, and the delivery number of the ticket. `cold` is the handle of a cold generation that the host made.
    #[tactic(auto, unfolding(crate::specs::Deliver::deliver_life, crate::specs::Deliver::repeats, crate::specs::Deliver::old_seq, crate::specs::Deliver::new_head, head_current::specs::Heads::anchor_of, head_values::specs::Anchors::holds, head_values::specs::Anchors::same_anchor, hash::specs::Hashes::same_hash))]
    pub fn deliver(self, anchor: ReadAnchor, parent_hash: Hash, cold: u64) -> (HeadLifecycle, Seq)
        ensures { result ≡ deliver_life self anchor parent_hash cold }
    {
        match self.current.delivery() {
            Some(held) if held.anchor == anchor && held.parent_hash == parent_hash => {
                (self.count(Counter::Repeated), held.seq)
            }
            _ => {
                let seq = self.seq.next();
                let anchor_installed = slot_anchor(self.installed) == Some(anchor);
                let delivery = HeadDelivery {
                    anchor,
                    parent_hash,
                    seq,
                };
                let life = HeadLifecycle {
                    current: new_head(anchor_installed, delivery, cold),
                    superseded: self.current.anchor().or(self.superseded),
                    seq,
                    stats: self
                        .stats
                        .raise_if(self.current.is_unsettled(), Counter::Superseded)
                        .raise(Counter::Delivered)
                        .raise_if(anchor_installed, Counter::AlreadyCurrent),
                    ..self
                };
                (life, seq)
            }
        }
    }

    // The epoch of the attempt that starts, or why none does.
    #[tactic(auto, using(crate::proofs::Said::starts), unfolding(crate::specs::Claim::claim_life, crate::specs::Claim::claim_held, head_current::specs::Heads::delivery, head_current::specs::Heads::is_settled, head_current::specs::Heads::is_preparing, head_values::specs::Anchors::holds, head_values::specs::Anchors::same_anchor, hash::specs::Hashes::same_hash))]
    pub fn claim(self, ticket: HeadTicket) -> (HeadLifecycle, Result<Epoch, HeadOutcome>)
        ensures { Starts result (claim_life self ticket) }
    {
        let Some(held) = self.current.delivery() else {
            return (self, Err(HeadOutcome::Superseded(ticket.anchor)));
        };
        if !held.has_ticket(ticket) {
            return (self, Err(HeadOutcome::Superseded(held.anchor)));
        }
        if slot_anchor(self.installed) == Some(held.anchor) {
            return (self, Err(HeadOutcome::AlreadySettled));
        }
        match self.current {
            CurrentHead::Preparing(_) => (self, Err(HeadOutcome::InFlight)),
            CurrentHead::Settled(_) => (self, Err(HeadOutcome::AlreadySettled)),
            // An absent head has no delivery, and was turned away above.
            CurrentHead::Absent | CurrentHead::Unclaimed(_) => {
                let epoch = self.claim_epoch.next();
                let life = HeadLifecycle {
                    current: self.current.claimed(epoch),
                    claim_epoch: epoch,
                    ..self
                };
                (life, Ok(epoch))
            }
        }
    }

    #[tactic(auto, unfolding(crate::specs::Release::release_life))]
    pub fn release(mut self, owner: PrepareClaim) -> HeadLifecycle
        ensures { result ≡ release_life self owner }
    {
        self.current = self.current.released(owner);
        self
    }

    // Which applies the state turns away. The refusals 11 and 12 are counted.
    #[tactic(auto, using(crate::proofs::Said::plans), unfolding(crate::specs::Apply::plan_apply, crate::specs::Apply::plan_held, head_values::specs::Anchors::holds, head_values::specs::Anchors::same_anchor, hash::specs::Hashes::same_hash))]
    pub fn plan_apply(self, ticket: HeadTicket, prepared: ReadAnchor) -> (HeadLifecycle, ApplyPlan)
        ensures { Plans result (plan_apply self ticket prepared) }
    {
        let Some(held) = self.current.delivery() else {
            let refused = ApplyPlan::Refused(HeadOutcome::Superseded(ticket.anchor));
            return (self.count(Counter::Discarded), refused);
        };
        if !held.has_ticket(ticket) {
            let refused = ApplyPlan::Refused(HeadOutcome::Superseded(held.anchor));
            return (self.count(Counter::Discarded), refused);
        }
        if prepared != held.anchor {
            let refused = ApplyPlan::Refused(HeadOutcome::Foreign(prepared, held.anchor));
            return (self.count(Counter::Discarded), refused);
        }
        if slot_anchor(self.installed) == Some(held.anchor) {
            return (self, ApplyPlan::Refused(HeadOutcome::AlreadySettled));
        }
        (self, ApplyPlan::Admitted(held))
    }

    // The Rust's `record_settle` and `settle_current`: an admitted apply to the head of that delivery, with the host's numbers for its hub and its report.
    #[tactic(auto, unfolding(crate::specs::Apply::record_settle, crate::specs::Apply::settling_epoch))]
    pub fn record_settle(
        self,
        held: HeadDelivery,
        outcome: CarryOutcome,
        handle: u64,
        report: u64,
    ) -> HeadLifecycle
        ensures { result ≡ record_settle self held outcome handle report }
    {
        let claim_epoch = if self.current.published_abandonment() {
            self.claim_epoch.next()
        } else {
            self.claim_epoch
        };
        let made = DeltaReport {
            outcome,
            number: report,
        };
        let readiness = settled_readiness(outcome);
        HeadLifecycle {
            current: self.current.settled(claim_epoch, made),
            installed: Some(Generation {
                anchor: held.anchor,
                handle,
                seq: held.seq,
                readiness,
            }),
            previous: previous_after(self.installed, outcome),
            claim_epoch,
            stats: self.stats.raise(Counter::Settled),
            ..self
        }
    }

    // The view at an anchor, first that fits: what the Rust's `snapshot` asks the cache for, then its `lookup`. `spare` is the handle of a cold
    // generation that the host made for this call.
    #[tactic(auto, unfolding(crate::specs::Views::view, crate::specs::Views::generation_view, head_values::specs::Anchors::same_anchor, hash::specs::Hashes::same_hash))]
    pub fn view_at(self, anchor: ReadAnchor, spare: u64) -> HeadView
        ensures { view_said result ≡ view_said (view self anchor spare) }
    {
        let fresh = spare_view(self.superseded, anchor, spare);
        let older = match self.previous {
            Some(g) if g.anchor == anchor => g.view(Source::Previous(g.seq)),
            _ => fresh,
        };
        let newer = current_view(self.current, anchor, older);
        match self.installed {
            Some(g) if g.anchor == anchor => g.view(Source::Installed(g.seq)),
            _ => newer,
        }
    }

    // The count of a view: it lends the counters. Each view that is answered is counted this way.
    #[tactic(auto, unfolding(crate::specs::State::view_counted))]
    pub fn record_view(mut self, ready: bool) -> HeadLifecycle
        ensures { result ≡ view_counted self ready }
    {
        record_view(&mut self.stats, ready);
        self
    }

    // How the current attempt ended, if the head is at that anchor.
    #[tactic(auto, using(head_attempt::proofs::Said::completion_exact), unfolding(crate::specs::Completion::completion_at, head_values::specs::Anchors::holds, head_values::specs::Anchors::same_anchor, hash::specs::Hashes::same_hash))]
    pub fn completion(self, anchor: ReadAnchor) -> HeadCompletion
        ensures { completion_said result ≡ completion_said (completion_at self anchor) }
    {
        if self.current.anchor() == Some(anchor) {
            self.current.published()
        } else {
            HeadCompletion::Open
        }
    }
}
