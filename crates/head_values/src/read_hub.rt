// From read_hub.rs: the link test, and what a prepared list can be.
ghost use Rattle.std.specs.Prelude.{◌≡◌};
ghost use Rattle.head_values.specs.Links.{classify_link, follows};
ghost use Rattle.head_values.specs.Lists.{as_prepared};
ghost use Rattle.head_values.specs.Said.{link_said};

use crate::{BalSkip, Link, PreparedBal, ReadAnchor};
use hash::Hash;

// The largest number has no successor.
#[tactic(auto, unfolding(crate::specs::Links::follows))]
pub(crate) fn follows(parent: u64, child: u64) -> bool
    ensures { result ≡ follows parent child }
{
    parent.checked_add(1) == Some(child)
}

#[tactic(auto, unfolding(crate::specs::Links::classify_link, crate::specs::Links::link_by_hash, hash::specs::Hashes::same_hash))]
pub fn classify_link(parent: Option<ReadAnchor>, child: ReadAnchor, parent_hash: Hash) -> Link
    ensures { link_said result ≡ link_said (classify_link parent child parent_hash) }
{
    let Some(parent) = parent else {
        return Link::NoParent;
    };
    if !follows(parent.number, child.number) {
        return Link::NotConsecutive;
    }
    match parent.hash {
        None => Link::HashUnknown,
        Some(hash) if hash != parent_hash => Link::HashMismatch,
        Some(_) => Link::Linked,
    }
}

// Whether `PreparedBal::prepare` could have made the list.
#[tactic(auto, unfolding(crate::specs::Lists::as_prepared, crate::specs::Lists::is_no_hash))]
pub fn as_prepared(list: PreparedBal) -> bool
    ensures { result ≡ as_prepared list }
{
    matches!(list.skip, BalSkip::NoHash) == list.anchor.hash.is_none()
}
