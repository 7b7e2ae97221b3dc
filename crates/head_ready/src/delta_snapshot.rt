// From delta_snapshot.rs: what the installed slot tells.
ghost use Rattle.std.specs.Prelude.{◌≡◌};
ghost use Rattle.head_ready.specs.Generations.{slot_anchor};

use crate::Generation;
use head_values::ReadAnchor;

// The Rust's `DeltaSnapshotCache::anchor`.
#[tactic(auto, unfolding(crate::specs::Generations::slot_anchor))]
pub fn slot_anchor(slot: Option<Generation>) -> Option<ReadAnchor>
    ensures { result ≡ slot_anchor slot }
{
    slot.map(|g| g.anchor)
}
