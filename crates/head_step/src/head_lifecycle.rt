// Every call on a driver by one function. In the Rust most are methods of `BalHeadDriver`.
ghost use Rattle.head_driver.specs.Answers.{Replies};
ghost use Rattle.head_step.specs.Steps.{step};

use head_asks::head_lifecycle::{completion, heads, last_report, link, stats};
use head_call::Call;
use head_calls::head_lifecycle::{apply, claim, deliver, release};
use head_driver::{Driver, Reply};
use head_waits::head_lifecycle::{resume, snapshot, wait};

// One match, since each call has parameters of its own. Each tests its input itself: none relies on a check made outside.
#[tactic(auto, unfolding(crate::specs::Steps::step))]
pub fn step(d: Driver, call: Call) -> Reply
    ensures { Replies result (step d call) }
{
    match call {
        Call::Deliver(anchor, parent_hash, cold) => deliver(d, anchor, parent_hash, cold),
        Call::Claim(ticket) => claim(d, ticket),
        Call::Release(owner) => release(d, owner),
        Call::Apply(ticket, list, handle, carried, report) => {
            apply(d, ticket, list, handle, carried, report)
        }
        Call::Snapshot(anchor, spare) => snapshot(d, anchor, spare),
        Call::Wait(n, anchor, spare) => wait(d, n, anchor, spare),
        Call::Resume(n, spare) => resume(d, n, spare),
        Call::Completion(anchor) => completion(d, anchor),
        Call::Link(parent, child, parent_hash) => link(d, parent, child, parent_hash),
        Call::Report => last_report(d),
        Call::Stats => stats(d),
        Call::Heads => heads(d),
    }
}
