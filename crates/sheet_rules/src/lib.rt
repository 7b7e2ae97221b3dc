// The rules of document 02, Job 2, for the driver that a sheet shows: one function a rule, each a test on that driver.
// Knows nothing of bytes, nor of how a driver is read.
#![tactic(auto)]

ghost use Rattle.std.specs.Prelude.{true, ◌↔◌, ◌≡◌};
ghost use Rattle.head_life.specs.Apply.{settled_readiness};
ghost use Rattle.alike.specs.Invariant.{NoneParked, NotParked, NumberAtMost, ReadinessIs, WhenGeneration, WhenMade};
ghost use Rattle.sheet_rules.specs.Rules.{FaultIfCold, MeetsRules, NamesAFault, NeedsEpoch, NoneWithoutHead, NumbersWithin, ParkedNeedPreparing, PreviousNeedsInstalled, SettledIsInstalled, SupersededShown, UnsettledIsNot};

use head_attempt::{HeadCompletion, Waiter, WaiterSlot};
use head_current::{CurrentHead, DeltaReport};
use head_driver::Driver;
use head_life::HeadLifecycle;
use head_life::head_lifecycle::settled_readiness;
use head_ready::delta_snapshot::slot_anchor;
use head_ready::{Generation, HeadCold, HeadReadiness};
use head_values::{BalSkip, Link};

// With no current head, superseded, installed and previous are none.
pub(crate) fn none_without_head(l: HeadLifecycle) -> bool
    ensures { (result ≡ true) ↔ NoneWithoutHead l }
{
    match l.current {
        CurrentHead::Absent => l.superseded.is_none()
            && l.installed.is_none()
            && l.previous.is_none(),
        _ => true,
    }
}

// A settled head is the installed one, and its report, if any, gives the installed readiness.
#[tactic(auto, unfolding(head_ready::specs::Generations::slot_anchor, head_current::specs::Heads::current_report, head_life::specs::Apply::settled_readiness))]
pub(crate) fn settled_is_installed(l: HeadLifecycle) -> bool
    ensures { (result ≡ true) ↔ SettledIsInstalled l }
{
    match l.current {
        CurrentHead::Settled(s) => slot_anchor(l.installed) == Some(s.delivery.anchor)
            && gives(s.report, l.installed),
        _ => true,
    }
}

// A report, if any, gives the installed readiness.
pub(crate) fn gives(report: Option<DeltaReport>, installed: Option<Generation>) -> bool
    ensures { (result ≡ true) ↔ WhenMade report (λ o. ReadinessIs (settled_readiness o) installed) }
{
    match (report, installed) {
        (None, _) => true,
        (Some(_), None) => false,
        (Some(r), Some(g)) => g.readiness == settled_readiness(r.outcome),
    }
}

// An unsettled head is not installed.
#[tactic(auto, unfolding(head_ready::specs::Generations::slot_anchor))]
pub(crate) fn unsettled_is_not(l: HeadLifecycle) -> bool
    ensures { (result ≡ true) ↔ UnsettledIsNot l }
{
    match l.current {
        CurrentHead::Unclaimed(u) | CurrentHead::Preparing(u) => slot_anchor(l.installed)
            != Some(u.delivery.anchor),
        _ => true,
    }
}

// Previous needs installed, with a block number one higher.
pub(crate) fn previous_needs_installed(l: HeadLifecycle) -> bool
    ensures { (result ≡ true) ↔ PreviousNeedsInstalled l }
{
    match (l.installed, l.previous) {
        (_, None) => true,
        (None, Some(_)) => false,
        (Some(g), Some(q)) => q.anchor.number.checked_add(1) == Some(g.anchor.number),
    }
}

// A cold outcome or readiness names a fault in at least one part.
pub(crate) fn names_a_fault(l: HeadLifecycle) -> bool
    ensures { (result ≡ true) ↔ NamesAFault l }
{
    report_fault_if_cold(l.current.report())
        && slot_fault_if_cold(l.installed)
        && slot_fault_if_cold(l.previous)
}

// A report, if any, names a fault where its outcome is cold.
pub(crate) fn report_fault_if_cold(report: Option<DeltaReport>) -> bool
    ensures { (result ≡ true) ↔ WhenMade report (λ o. FaultIfCold (settled_readiness o)) }
{
    match report {
        Some(r) => fault_if_cold(settled_readiness(r.outcome)),
        None => true,
    }
}

// A generation, if any, names a fault where it is cold.
pub(crate) fn slot_fault_if_cold(slot: Option<Generation>) -> bool
    ensures { (result ≡ true) ↔ WhenGeneration slot (λ g. FaultIfCold g.readiness) }
{
    match slot {
        Some(g) => fault_if_cold(g.readiness),
        None => true,
    }
}

// A cold readiness with a link and a skip names a fault in one of them.
pub(crate) fn fault_if_cold(readiness: HeadReadiness) -> bool
    ensures { (result ≡ true) ↔ FaultIfCold readiness }
{
    match readiness {
        HeadReadiness::Cold(HeadCold::Settled(link, skip)) => link != Link::Linked
            || skip != BalSkip::Nothing,
        _ => true,
    }
}

// Parked waiters need a preparing head.
pub(crate) fn parked_need_preparing(d: Driver) -> bool
    ensures { (result ≡ true) ↔ ParkedNeedPreparing d }
{
    match d.life.current {
        CurrentHead::Preparing(_) => true,
        _ => none_parked(&d.waiters),
    }
}

// No waiter is parked.
#[tactic(auto, using(crate::proofs::Waiters::one_more, crate::proofs::Waiters::all_passed, crate::proofs::Waiters::one_parked))]
pub(crate) fn none_parked(waiters: &[WaiterSlot]) -> bool
    ensures { (result ≡ true) ↔ NoneParked waiters.now }
{
    for slot in waiters {
        if !not_parked(slot.waiter) {
            return false;
        }
    }
    true
}

// A waiter that is not parked.
pub(crate) fn not_parked(waiter: Waiter) -> bool
    ensures { (result ≡ true) ↔ NotParked waiter }
{
    !matches!(waiter, Waiter::Parked)
}

// A head that is preparing or abandoned needs an epoch of at least 1.
pub(crate) fn needs_epoch(l: HeadLifecycle) -> bool
    ensures { (result ≡ true) ↔ NeedsEpoch l }
{
    match l.current {
        CurrentHead::Preparing(_) => l.claim_epoch.0 >= 1,
        CurrentHead::Unclaimed(u) => match u.attempt.end {
            HeadCompletion::Abandoned => l.claim_epoch.0 >= 1,
            _ => true,
        },
        _ => true,
    }
}

// The superseded line: no anchor is shown that document 01 masks.
#[tactic(auto, unfolding(head_ready::specs::Generations::slot_anchor))]
pub(crate) fn superseded_shown(l: HeadLifecycle) -> bool
    ensures { (result ≡ true) ↔ SupersededShown l }
{
    let Some(anchor) = l.superseded else {
        return true;
    };
    if l.current.anchor() == Some(anchor) {
        return false;
    }
    match l.current {
        CurrentHead::Settled(_) => slot_anchor(l.previous) != Some(anchor),
        _ => true,
    }
}

// Settle numbers don't exceed delivered.
pub(crate) fn numbers_within(l: HeadLifecycle) -> bool
    ensures { (result ≡ true) ↔ NumbersWithin l }
{
    number_within(l.installed, l.stats.delivered) && number_within(l.previous, l.stats.delivered)
}

// A settle number is at most delivered.
pub(crate) fn number_within(slot: Option<Generation>, delivered: u64) -> bool
    ensures { (result ≡ true) ↔ WhenGeneration slot (NumberAtMost delivered) }
{
    match slot {
        Some(g) => g.seq.0 <= delivered,
        None => true,
    }
}

// All of the rules, in the paper's order.
pub fn meets_rules(d: Driver) -> bool
    ensures { (result ≡ true) ↔ MeetsRules d }
{
    none_without_head(d.life)
        && settled_is_installed(d.life)
        && unsettled_is_not(d.life)
        && previous_needs_installed(d.life)
        && names_a_fault(d.life)
        && parked_need_preparing(d)
        && needs_epoch(d.life)
        && superseded_shown(d.life)
        && numbers_within(d.life)
}
