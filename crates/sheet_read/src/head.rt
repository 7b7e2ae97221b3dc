// The lines of the current head and of the superseded anchor.
ghost use Rattle.line_reader.specs.Reads.{rest, Reads};
ghost use Rattle.sheet_read.specs.Heads.{head_named, read_current, read_delivery, read_preparing, read_settled, read_superseded, read_unclaimed, read_unclaimed_end};

use crate::outcome::take_report;
use head_attempt::{ClaimAttempt, HeadCompletion};
use head_count::{Epoch, Seq};
use head_current::{CurrentHead, HeadDelivery, SettledHead, UnsettledHead};
use head_values::ReadAnchor;
use line_reader::LineReader;
use value_read::anchor::{take_anchor, take_hash, take_slot};
use value_read::given::past_text;
use value_read::number::spaced_number;
use value_text::page::Page;

// `A P`
#[tactic(auto, using(value_read::proofs::Stopped::byte_stopped, value_read::proofs::Stopped::anchor_stopped, value_read::proofs::Stopped::hash_stopped), unfolding(crate::specs::Heads::read_delivery))]
pub(crate) fn take_delivery(r: &mut LineReader<'_>, delivered: u64) -> Option<HeadDelivery>
    ensures { Reads r.old r.new result (read_delivery delivered (rest r.old)) }
{
    let anchor = take_anchor(r, Page::Sheet)?;
    r.past_byte(b' ')?;
    let parent_hash = take_hash(r, Page::Sheet)?;
    Some(HeadDelivery {
        anchor,
        parent_hash,
        seq: Seq(delivered),
    })
}

#[tactic(auto, using(value_read::proofs::Keywords::same_bytes, value_read::proofs::Keywords::other_length, value_read::proofs::Keywords::other_byte), unfolding(crate::specs::Heads::read_unclaimed_end, value_text::specs::Reads::or_word, text::specs::Rests::says))]
pub(crate) fn take_unclaimed_end(r: &mut LineReader<'_>) -> Option<HeadCompletion>
    ensures { Reads r.old r.new result (read_unclaimed_end (rest r.old)) }
{
    match r.take_word() {
        b"open" => Some(HeadCompletion::Open),
        b"abandoned" => Some(HeadCompletion::Abandoned),
        _ => None,
    }
}

// ` A P H open` or ` A P H abandoned`
#[tactic(auto, using(value_read::proofs::Stopped::byte_stopped, value_read::proofs::Stopped::spaced_number_stopped, crate::proofs::Stopped::delivery_stopped, crate::proofs::Stopped::unclaimed_end_stopped), unfolding(crate::specs::Heads::read_unclaimed))]
pub(crate) fn take_unclaimed(r: &mut LineReader<'_>, delivered: u64) -> Option<CurrentHead>
    ensures { Reads r.old r.new result (read_unclaimed delivered (rest r.old)) }
{
    r.past_byte(b' ')?;
    let delivery = take_delivery(r, delivered)?;
    let provisional = spaced_number(r)?;
    r.past_byte(b' ')?;
    let end = take_unclaimed_end(r)?;
    let attempt = ClaimAttempt {
        epoch: Epoch(0),
        end,
    };
    Some(CurrentHead::Unclaimed(UnsettledHead {
        delivery,
        provisional,
        attempt,
    }))
}

// ` A P H`
#[tactic(auto, using(value_read::proofs::Stopped::byte_stopped, value_read::proofs::Stopped::spaced_number_stopped, crate::proofs::Stopped::delivery_stopped), unfolding(crate::specs::Heads::read_preparing))]
pub(crate) fn take_preparing(
    r: &mut LineReader<'_>,
    delivered: u64,
    epoch: Epoch,
) -> Option<CurrentHead>
    ensures { Reads r.old r.new result (read_preparing delivered epoch (rest r.old)) }
{
    r.past_byte(b' ')?;
    let delivery = take_delivery(r, delivered)?;
    let provisional = spaced_number(r)?;
    Some(CurrentHead::Preparing(UnsettledHead {
        delivery,
        provisional,
        attempt: ClaimAttempt::minted(epoch),
    }))
}

// ` A P R`
#[tactic(auto, using(value_read::proofs::Stopped::byte_stopped, crate::proofs::Stopped::delivery_stopped, crate::proofs::Stopped::report_stopped), unfolding(crate::specs::Heads::read_settled))]
pub(crate) fn take_settled(r: &mut LineReader<'_>, delivered: u64) -> Option<CurrentHead>
    ensures { Reads r.old r.new result (read_settled delivered (rest r.old)) }
{
    r.past_byte(b' ')?;
    let delivery = take_delivery(r, delivered)?;
    r.past_byte(b' ')?;
    let report = take_report(r)?;
    Some(CurrentHead::Settled(SettledHead {
        delivery,
        report,
        attempt: ClaimAttempt::settled(Epoch(0)),
    }))
}

// What follows the word that names the head's pose.
#[tactic(auto, using(value_read::proofs::Keywords::same_bytes, value_read::proofs::Keywords::other_length, value_read::proofs::Keywords::other_byte), unfolding(crate::specs::Heads::head_named))]
pub(crate) fn take_named(
    r: &mut LineReader<'_>,
    word: &[u8],
    delivered: u64,
    epoch: Epoch,
) -> Option<CurrentHead>
    ensures { Reads r.old r.new result (head_named delivered epoch word.now (rest r.old)) }
{
    match word {
        b"none" => Some(CurrentHead::Absent),
        b"unclaimed" => take_unclaimed(r, delivered),
        b"preparing" => take_preparing(r, delivered, epoch),
        b"settled" => take_settled(r, delivered),
        _ => None,
    }
}

#[tactic(auto, using(crate::proofs::Stopped::text_stopped, crate::proofs::Stopped::head_stopped), unfolding(crate::specs::Heads::read_current, value_text::specs::Reads::then))]
pub(crate) fn take_current(
    r: &mut LineReader<'_>,
    delivered: u64,
    epoch: Epoch,
) -> Option<CurrentHead>
    ensures { Reads r.old r.new result (read_current delivered epoch (rest r.old)) }
{
    past_text(r, b"(current ")?;
    let word = r.take_word();
    let current = take_named(r, word, delivered, epoch)?;
    past_text(r, b")\n")?;
    Some(current)
}

#[tactic(auto, using(crate::proofs::Stopped::text_stopped, value_read::proofs::Stopped::slot_stopped), unfolding(crate::specs::Heads::read_superseded, value_text::specs::Reads::then))]
pub(crate) fn take_superseded(r: &mut LineReader<'_>) -> Option<Option<ReadAnchor>>
    ensures { Reads r.old r.new result (read_superseded (rest r.old)) }
{
    past_text(r, b"(superseded ")?;
    let superseded = take_slot(r, Page::Sheet)?;
    past_text(r, b")\n")?;
    Some(superseded)
}
