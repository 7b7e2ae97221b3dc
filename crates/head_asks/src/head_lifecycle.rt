// From head_lifecycle.rs: `BalHeadDriver::completion`, `last_report`, `stats`, `delivered`, `installed` and `previous`; and `classify_link`, of
// read_hub.rs, as a call.
ghost use Rattle.head_asks.specs.Asks.{completion, heads, last_report, link, stats};
ghost use Rattle.head_driver.specs.Answers.{Replies};

use hash::Hash;
use head_driver::head_lifecycle::answered;
use head_driver::{Answer, Driver, Reply};
use head_ready::delta_snapshot::slot_anchor;
use head_values::ReadAnchor;
use head_values::read_hub::classify_link;

#[tactic(auto, using(head_driver::proofs::Replied::replied, head_attempt::proofs::Said::completion_exact), unfolding(crate::specs::Asks::completion))]
pub fn completion(d: Driver, anchor: ReadAnchor) -> Reply
    ensures { Replies result (completion d anchor) }
{
    answered(d, Answer::Completion(d.life.completion(anchor)))
}

#[tactic(auto, using(head_driver::proofs::Replied::replied, head_values::proofs::Said::link_exact), unfolding(crate::specs::Asks::link))]
pub fn link(d: Driver, parent: Option<ReadAnchor>, child: ReadAnchor, parent_hash: Hash) -> Reply
    ensures { Replies result (link d parent child parent_hash) }
{
    answered(d, Answer::Link(classify_link(parent, child, parent_hash)))
}

#[tactic(auto, using(head_driver::proofs::Replied::replied, head_current::proofs::Said::report_exact), unfolding(crate::specs::Asks::last_report))]
pub fn last_report(d: Driver) -> Reply
    ensures { Replies result (last_report d) }
{
    answered(d, Answer::Report(d.life.current.report()))
}

#[tactic(auto, using(head_driver::proofs::Replied::replied), unfolding(crate::specs::Asks::stats))]
pub fn stats(d: Driver) -> Reply
    ensures { Replies result (stats d) }
{
    answered(d, Answer::Stats(d.life.stats))
}

#[tactic(auto, using(head_driver::proofs::Replied::replied), unfolding(crate::specs::Asks::heads))]
pub fn heads(d: Driver) -> Reply
    ensures { Replies result (heads d) }
{
    let current = d.life.current.anchor();
    let installed = slot_anchor(d.life.installed);
    let previous = slot_anchor(d.life.previous);
    answered(d, Answer::Heads(current, installed, previous))
}
