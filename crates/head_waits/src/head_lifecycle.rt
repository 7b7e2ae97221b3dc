// From head_lifecycle.rs: `BalHeadDriver::snapshot`, `wait_for_head` and `abandoned_view`. A poll of the future of `wait_for_head` is a call here: the
// first one `wait`, each later one `resume`.
ghost use Rattle.std.specs.Prelude.{◌≡◌};
ghost use Rattle.head_driver.specs.Answers.{Replies};
ghost use Rattle.head_waits.specs.Parts.{put};
ghost use Rattle.head_waits.specs.Snapshot.{snapshot, viewed};
ghost use Rattle.head_waits.specs.Waits.{abandoned_view, resume, shown_by_wait, view_frees, wait, waits_anew};

use head_attempt::{Waiter, WaiterSlot};
use head_driver::head_lifecycle::answered;
use head_driver::{Answer, Driver, Reply};
use head_ready::{HeadCold, HeadReadiness, HeadView, Source};
use head_values::ReadAnchor;

// Counts the view and answers what is shown of it.
#[tactic(auto, unfolding(crate::specs::Snapshot::viewed, head_driver::specs::Parts::with_life))]
pub(crate) fn viewed(mut d: Driver, view: HeadView, shown: HeadView) -> Reply
    ensures { result ≡ viewed d view shown }
{
    d.life = d.life.record_view(view.readiness.is_ready());
    answered(d, Answer::View(shown))
}

#[tactic(auto, using(head_driver::proofs::Replied::replied, head_ready::proofs::Said::view_exact), unfolding(crate::specs::Snapshot::snapshot))]
pub fn snapshot(d: Driver, anchor: ReadAnchor, spare: u64) -> Reply
    ensures { Replies result (snapshot d anchor spare) }
{
    let view = d.life.view_at(anchor, spare);
    viewed(d, view, view)
}

// What a wait shows of a view that no live preparation owns.
#[tactic(auto, unfolding(crate::specs::Waits::shown_by_wait, crate::specs::Waits::readiness_by_wait))]
pub(crate) fn shown_by_wait(view: HeadView) -> HeadView
    ensures { result ≡ shown_by_wait view }
{
    match view.readiness {
        HeadReadiness::Cold(HeadCold::Unprepared) => HeadView {
            readiness: HeadReadiness::Cold(HeadCold::Abandoned),
            ..view
        },
        _ => view,
    }
}

// The answer of a wait that an abandonment ended: never ready, and never a hub that a later retry settled ready.
#[tactic(auto, unfolding(crate::specs::Waits::abandoned_view))]
pub(crate) fn abandoned_view(view: HeadView, spare: u64) -> HeadView
    ensures { result ≡ abandoned_view view spare }
{
    let readiness = HeadReadiness::Cold(HeadCold::Abandoned);
    if view.readiness.is_ready() {
        HeadView {
            source: Source::Spare,
            handle: spare,
            readiness,
        }
    } else {
        HeadView { readiness, ..view }
    }
}

// Above 15 there is none, and nothing is put.
#[tactic(auto, unfolding(crate::specs::Parts::put))]
pub(crate) fn put(mut d: Driver, n: u64, waiter: Waiter) -> Driver
    ensures { result ≡ put d n waiter }
{
    if n <= 15 {
        d.waiters[n as usize] = WaiterSlot { waiter };
    }
    d
}

// A view counts, and frees the number.
#[tactic(auto, unfolding(crate::specs::Waits::view_frees, crate::specs::Snapshot::viewed, head_driver::specs::Parts::with_life, crate::specs::Parts::put))]
pub(crate) fn view_frees(d: Driver, n: u64, view: HeadView, shown: HeadView) -> Reply
    ensures { result ≡ view_frees d n view shown }
{
    viewed(put(d, n, Waiter::Free), view, shown)
}

// One turn of the Rust's loop: park on the live preparation at that anchor, or answer.
#[tactic(auto, using(head_ready::proofs::Said::view_exact), unfolding(crate::specs::Waits::waits_anew))]
pub(crate) fn waits_anew(d: Driver, n: u64, anchor: ReadAnchor, spare: u64) -> Reply
    ensures { result ≡ waits_anew d n anchor spare }
{
    if d.life.current.preparing_at(anchor) {
        return answered(put(d, n, Waiter::Parked), Answer::Parked);
    }
    let view = d.life.view_at(anchor, spare);
    view_frees(d, n, view, shown_by_wait(view))
}

#[tactic(auto, using(head_driver::proofs::Replied::replied), unfolding(crate::specs::Waits::wait, crate::specs::Waits::wait_as, crate::specs::Parts::waiter_at))]
pub fn wait(d: Driver, n: u64, anchor: ReadAnchor, spare: u64) -> Reply
    ensures { Replies result (wait d n anchor spare) }
{
    if n > 15 {
        return answered(d, Answer::WaiterAbove15);
    }
    match d.waiters[n as usize].waiter {
        Waiter::Free => waits_anew(d, n, anchor, spare),
        Waiter::Parked | Waiter::Abandoned(_) | Waiter::Ended(_) => answered(
            d,
            Answer::WaiterNotFree,
        ),
    }
}

// One match over document 01's four cases, each with a value of its own.
#[tactic(auto, using(head_driver::proofs::Replied::replied, head_ready::proofs::Said::view_exact), unfolding(crate::specs::Waits::resume, crate::specs::Waits::resume_as, crate::specs::Parts::waiter_at))]
pub fn resume(d: Driver, n: u64, spare: u64) -> Reply
    ensures { Replies result (resume d n spare) }
{
    if n > 15 {
        return answered(d, Answer::WaiterAbove15);
    }
    match d.waiters[n as usize].waiter {
        Waiter::Free => answered(d, Answer::WaiterFree),
        Waiter::Parked => answered(d, Answer::Parked),
        Waiter::Abandoned(anchor) => {
            let view = d.life.view_at(anchor, spare);
            view_frees(d, n, view, abandoned_view(view, spare))
        }
        Waiter::Ended(anchor) => waits_anew(d, n, anchor, spare),
    }
}
