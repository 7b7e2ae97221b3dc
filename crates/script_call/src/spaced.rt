// Hashes, anchors and skips of a line, each after one space by a function of its own: one over a reader handed in is no plainer.
ghost use Rattle.line_reader.specs.Reads.{rest, Reads};
ghost use Rattle.script_call.specs.Values.{spaced_anchor, spaced_hash, spaced_skip, spaced_slot};

use hash::Hash;
use head_values::{BalSkip, ReadAnchor};
use line_reader::LineReader;
use value_read::anchor::{take_anchor, take_hash, take_slot};
use value_read::skip::take_skip;
use value_text::page::Page;

// A parent hash, which is never `none`.
#[tactic(auto, using(value_read::proofs::Stopped::hash_stopped), unfolding(crate::specs::Values::spaced_hash))]
pub(crate) fn spaced_hash(r: &mut LineReader<'_>) -> Option<Hash>
    ensures { Reads r.old r.new result (spaced_hash (rest r.old)) }
{
    r.past_byte(b' ')?;
    take_hash(r, Page::Line)
}

#[tactic(auto, using(value_read::proofs::Stopped::anchor_stopped), unfolding(crate::specs::Values::spaced_anchor))]
pub(crate) fn spaced_anchor(r: &mut LineReader<'_>) -> Option<ReadAnchor>
    ensures { Reads r.old r.new result (spaced_anchor (rest r.old)) }
{
    r.past_byte(b' ')?;
    take_anchor(r, Page::Line)
}

// An anchor or `none`.
#[tactic(auto, using(value_read::proofs::Stopped::slot_stopped), unfolding(crate::specs::Values::spaced_slot))]
pub(crate) fn spaced_slot(r: &mut LineReader<'_>) -> Option<Option<ReadAnchor>>
    ensures { Reads r.old r.new result (spaced_slot (rest r.old)) }
{
    r.past_byte(b' ')?;
    take_slot(r, Page::Line)
}

#[tactic(auto, using(value_read::proofs::Stopped::skip_stopped), unfolding(crate::specs::Values::spaced_skip))]
pub(crate) fn spaced_skip(r: &mut LineReader<'_>) -> Option<BalSkip>
    ensures { Reads r.old r.new result (spaced_skip (rest r.old)) }
{
    r.past_byte(b' ')?;
    take_skip(r)
}
