// From storage_memo.rs: the derived `==` of anchors is document 01's. Two laws, since code writes `==`.
ghost use Rattle.std.specs.Prelude.{◌≡◌};
ghost use Rattle.head_values.specs.Anchors.{same_anchor, holds};

use crate::ReadAnchor;

#[tactic(auto, unfolding(crate::specs::Anchors::same_anchor, hash::specs::Hashes::same_hash))]
pub fn same_anchor(a: ReadAnchor, b: ReadAnchor) -> bool
    ensures { result ≡ same_anchor a b }
{
    a == b
}

// There is an anchor, and it is this one.
#[tactic(auto, unfolding(crate::specs::Anchors::holds, crate::specs::Anchors::same_anchor, hash::specs::Hashes::same_hash))]
pub fn holds(slot: Option<ReadAnchor>, a: ReadAnchor) -> bool
    ensures { result ≡ holds slot a }
{
    slot == Some(a)
}
