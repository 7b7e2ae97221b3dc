// What a sheet shows of the superseded anchor: `none` where it is the current one, or the previous one under a settled head, since no answer tells it then.
ghost use Rattle.std.specs.Prelude.{◌≡◌};
ghost use Rattle.alike.specs.Canon.{masked, shown_superseded};

use head_current::CurrentHead;
use head_ready::Generation;
use head_ready::delta_snapshot::slot_anchor;
use head_values::ReadAnchor;

#[tactic(auto, unfolding(alike::specs::Canon::masked, head_current::specs::Heads::is_settled, head_values::specs::Anchors::holds, head_values::specs::Anchors::same_anchor, hash::specs::Hashes::same_hash))]
pub(crate) fn masked(current: CurrentHead, previous: Option<Generation>, anchor: ReadAnchor) -> bool
    ensures { result ≡ masked current previous anchor }
{
    let is_settled = matches!(current, CurrentHead::Settled(_));
    current.anchor() == Some(anchor) || is_settled && slot_anchor(previous) == Some(anchor)
}

#[tactic(auto, unfolding(alike::specs::Canon::shown_superseded, alike::specs::Canon::mask_by))]
pub(crate) fn shown_superseded(
    current: CurrentHead,
    previous: Option<Generation>,
    superseded: Option<ReadAnchor>,
) -> Option<ReadAnchor>
    ensures { result ≡ shown_superseded current previous superseded }
{
    match superseded {
        Some(anchor) if !masked(current, previous, anchor) => superseded,
        _ => None,
    }
}
