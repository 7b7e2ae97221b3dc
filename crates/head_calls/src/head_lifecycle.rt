// From head_lifecycle.rs: `BalHeadDriver::deliver`, the claim of `advance_with_relevance`, the drop of a `PrepareClaim`, and
// `BalHeadDriver::apply_members`. A call takes the driver by value and gives it back with its answer.
ghost use Rattle.std.specs.Prelude.{◌≡◌};
ghost use Rattle.head_calls.specs.Apply.{apply, apply_settled};
ghost use Rattle.head_calls.specs.Claim.{claim};
ghost use Rattle.head_calls.specs.Deliver.{deliver};
ghost use Rattle.head_calls.specs.Release.{release};
ghost use Rattle.head_driver.specs.Answers.{Replies};

use hash::Hash;
use head_attempt::HeadCompletion;
use head_current::{HeadDelivery, HeadTicket, PrepareClaim};
use head_driver::head_lifecycle::answered;
use head_driver::{Answer, Driver, Reply};
use head_life::{ApplyPlan, HeadLifecycle};
use head_ready::HeadOutcome;
use head_ready::delta_snapshot::slot_anchor;
use head_values::delta_snapshot::apply_prepared;
use head_values::read_hub::as_prepared;
use head_values::{CarryOutcome, PreparedBal, ReadAnchor};

#[tactic(auto, using(head_driver::proofs::Replied::replied), unfolding(crate::specs::Deliver::deliver))]
pub fn deliver(d: Driver, anchor: ReadAnchor, parent_hash: Hash, cold: u64) -> Reply
    ensures { Replies result (deliver d anchor parent_hash cold) }
{
    let (life, seq) = d.life.deliver(anchor, parent_hash, cold);
    answered(
        d.moved(life, HeadCompletion::Superseded),
        Answer::Ticket(seq),
    )
}

#[tactic(auto, using(head_driver::proofs::Replied::replied, head_life::proofs::Said::start_exact), unfolding(crate::specs::Claim::claim, crate::specs::Claim::claim_answer, head_driver::specs::Parts::with_life))]
pub fn claim(mut d: Driver, ticket: HeadTicket) -> Reply
    ensures { Replies result (claim d ticket) }
{
    let (life, start) = d.life.claim(ticket);
    d.life = life;
    match start {
        Ok(epoch) => answered(d, Answer::Claimed(epoch)),
        Err(outcome) => answered(d, Answer::Outcome(outcome)),
    }
}

#[tactic(auto, using(head_driver::proofs::Replied::replied), unfolding(crate::specs::Release::release))]
pub fn release(d: Driver, owner: PrepareClaim) -> Reply
    ensures { Replies result (release d owner) }
{
    let life = d.life.release(owner);
    answered(d.moved(life, HeadCompletion::Abandoned), Answer::Done)
}

// The head settles with that outcome, and so does its preparation. Inlined, since called it copies the driver in and out.
#[inline(always)]
#[tactic(auto, unfolding(crate::specs::Apply::apply_settled))]
pub(crate) fn apply_settled(
    d: Driver,
    life: HeadLifecycle,
    held: HeadDelivery,
    outcome: CarryOutcome,
    handle: u64,
    report: u64,
) -> Reply
    ensures { result ≡ apply_settled d life held outcome handle report }
{
    let next = life.record_settle(held, outcome, handle, report);
    answered(
        d.moved(next, HeadCompletion::Settled),
        Answer::Outcome(HeadOutcome::Settled(outcome)),
    )
}

// `handle`, `carried` and `report` are the host's numbers for the new hub, for what it carried over and for the report.
#[tactic(auto, using(head_driver::proofs::Replied::replied, head_life::proofs::Said::plan_exact, head_values::proofs::Said::settled_exact), unfolding(crate::specs::Apply::apply, crate::specs::Apply::apply_planned, head_driver::specs::Parts::with_life))]
pub fn apply(
    mut d: Driver,
    ticket: HeadTicket,
    list: PreparedBal,
    handle: u64,
    carried: u64,
    report: u64,
) -> Reply
    ensures { Replies result (apply d ticket list handle carried report) }
{
    if !as_prepared(list) {
        return answered(d, Answer::ListDisagrees);
    }
    let (life, plan) = d.life.plan_apply(ticket, list.anchor);
    match plan {
        ApplyPlan::Refused(outcome) => {
            d.life = life;
            answered(d, Answer::Outcome(outcome))
        }
        ApplyPlan::Admitted(held) => {
            let installed = slot_anchor(life.installed);
            let outcome = apply_prepared(
                installed,
                held.anchor,
                held.parent_hash,
                list.skip,
                carried,
            );
            apply_settled(d, life, held, outcome, handle, report)
        }
    }
}
