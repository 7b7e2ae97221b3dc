// From head_lifecycle.rs: the methods of `ClaimAttempt`, and what its `watch` channel does for those who wait.
ghost use Rattle.std.specs.Prelude.{◌≡◌};
ghost use Rattle.head_attempt.specs.Attempts.{first_end, minted, publish, settled};
ghost use Rattle.head_attempt.specs.Waiters.{wake, woken};

use crate::{ClaimAttempt, HeadCompletion, Waiter, WaiterSlot};
use head_count::Epoch;
use head_values::ReadAnchor;

// The first end stays.
#[tactic(auto, unfolding(crate::specs::Attempts::first_end))]
pub(crate) fn first_end(end: HeadCompletion, later: HeadCompletion) -> HeadCompletion
    ensures { result ≡ first_end end later }
{
    match end {
        HeadCompletion::Open => later,
        HeadCompletion::Settled | HeadCompletion::Superseded | HeadCompletion::Abandoned => end,
    }
}

impl ClaimAttempt {
    // An attempt that nothing has ended yet. A delivery's own has epoch 0. `minted` and `settled` are the Rust's: by their names a reader finds them.
    #[tactic(auto, unfolding(crate::specs::Attempts::minted))]
    pub fn minted(epoch: Epoch) -> ClaimAttempt
        ensures { result ≡ minted epoch }
    {
        ClaimAttempt {
            epoch,
            end: HeadCompletion::Open,
        }
    }

    #[tactic(auto, unfolding(crate::specs::Attempts::settled))]
    pub fn settled(epoch: Epoch) -> ClaimAttempt
        ensures { result ≡ settled epoch }
    {
        ClaimAttempt {
            epoch,
            end: HeadCompletion::Settled,
        }
    }

    #[tactic(auto, unfolding(crate::specs::Attempts::publish))]
    pub fn publish(self, end: HeadCompletion) -> ClaimAttempt
        ensures { result ≡ publish self end }
    {
        ClaimAttempt {
            end: first_end(self.end, end),
            ..self
        }
    }
}

impl Waiter {
    // What becomes of a waiter when the preparation at that anchor ends so.
    #[tactic(auto, unfolding(crate::specs::Waiters::woken))]
    pub(crate) fn woken(self, end: HeadCompletion, anchor: ReadAnchor) -> Waiter
        ensures { result ≡ woken end anchor self }
    {
        match self {
            Waiter::Parked => match end {
                HeadCompletion::Open => Waiter::Parked,
                HeadCompletion::Settled | HeadCompletion::Superseded => Waiter::Ended(anchor),
                HeadCompletion::Abandoned => Waiter::Abandoned(anchor),
            },
            Waiter::Free | Waiter::Abandoned(_) | Waiter::Ended(_) => self,
        }
    }
}

// The preparation at that anchor has ended, and so has the wait of everyone parked on it.
pub fn wake(
    end: HeadCompletion,
    anchor: ReadAnchor,
    mut waiters: [WaiterSlot; 16],
) -> [WaiterSlot; 16]
    ensures { result ≡ wake end anchor waiters }
{
    for slot in &mut waiters {
        slot.waiter = slot.waiter.woken(end, anchor);
    }
    waiters
}
