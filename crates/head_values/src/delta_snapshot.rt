// From delta_snapshot.rs: the outcome of `DeltaSnapshotCache::apply_prepared`.
ghost use Rattle.std.specs.Prelude.{◌≡◌};
ghost use Rattle.head_values.specs.Lists.{outcome, apply_prepared};
ghost use Rattle.head_values.specs.Said.{settled_said};

use crate::read_hub::classify_link;
use crate::{BalSkip, CarryOutcome, Link, ReadAnchor};
use hash::Hash;

#[tactic(auto, unfolding(crate::specs::Lists::outcome, crate::specs::Lists::is_linked, crate::specs::Lists::is_decoded))]
pub(crate) fn outcome(link: Link, skip: BalSkip, carried: u64) -> CarryOutcome
    ensures { result ≡ outcome link skip carried }
{
    match (link, skip) {
        (Link::Linked, BalSkip::Nothing) => CarryOutcome::Carried(carried),
        (link, skip) => CarryOutcome::Cold(link, skip),
    }
}

#[tactic(auto, using(crate::proofs::Said::link_exact), unfolding(crate::specs::Lists::apply_prepared))]
pub fn apply_prepared(
    installed: Option<ReadAnchor>,
    anchor: ReadAnchor,
    parent_hash: Hash,
    skip: BalSkip,
    carried: u64,
) -> CarryOutcome
    ensures { settled_said result ≡ settled_said (apply_prepared installed anchor parent_hash skip carried) }
{
    outcome(classify_link(installed, anchor, parent_hash), skip, carried)
}
