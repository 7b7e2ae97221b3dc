// Outcomes and reports.
ghost use Rattle.std.specs.Prelude.{cond, ◌≡◌};
ghost use Rattle.head_values.specs.Words.{Word};
ghost use Rattle.line_reader.specs.Reads.{rest, Reads};
ghost use Rattle.text.specs.Ascii.{ascii};
ghost use Rattle.text.specs.Rests.{after, past_word, says};
ghost use Rattle.value_text.specs.Words.{word_text};
ghost use Rattle.sheet_read.specs.Values.{read_cold, read_fault, read_made, read_outcome, read_report};

use head_current::DeltaReport;
use head_values::{BalSkip, CarryOutcome, Link};
use line_reader::LineReader;
use value_read::given::past_text;
use value_read::number::spaced_number;
use value_read::skip::take_skip;

// What was wrong with a link and with a list.
#[derive(Clone, Copy)]
pub struct Cold {
    pub link: Link,
    pub skip: BalSkip,
}

// What is wrong with a link, or `none`.
#[tactic(auto, unfolding(crate::specs::Values::read_fault, crate::specs::Values::read_faulty, value_text::specs::Reads::or_word, value_text::specs::Words::word_text))]
pub(crate) fn take_fault(r: &mut LineReader<'_>) -> Option<Link>
    ensures { Reads r.old r.new result (read_fault (rest r.old)) }
{
    if r.past_keyword(b"none") {
        return Some(Link::Linked);
    }
    if r.past_keyword(b"no-parent") {
        return Some(Link::NoParent);
    }
    if r.past_keyword(b"not-consecutive") {
        return Some(Link::NotConsecutive);
    }
    if r.past_keyword(b"hash-unknown") {
        return Some(Link::HashUnknown);
    }
    if r.past_keyword(b"hash-mismatch") {
        return Some(Link::HashMismatch);
    }
    None
}

// `(cold LINK SKIP)`
#[tactic(auto, using(value_read::proofs::Stopped::byte_stopped, value_read::proofs::Stopped::skip_stopped, crate::proofs::Stopped::fault_stopped), unfolding(crate::specs::Values::read_cold))]
pub(crate) fn take_cold(r: &mut LineReader<'_>) -> Option<Cold>
    ensures { Reads r.old r.new result (read_cold (rest r.old)) }
{
    past_text(r, b"(cold ")?;
    let link = take_fault(r)?;
    r.past_byte(b' ')?;
    let skip = take_skip(r)?;
    r.past_byte(b')')?;
    Some(Cold { link, skip })
}

// Whether a bracket and the word `carried` stand next; they are taken if so, and else nothing.
#[tactic(auto, using(crate::proofs::Stopped::says_stopped), unfolding(value_text::specs::Words::word_text))]
pub(crate) fn past_carried(r: &mut LineReader<'_>) -> bool
    ensures said { result ≡ says (word_text Word.carried) (after (ascii "(") (rest r.old)) }
    ensures line { r.new.line ≡ r.old.line }
    ensures rest { cond result (past_word (after (ascii "(") (rest r.old))) (rest r.old) ≡ rest r.new }
{
    let mut ahead = *r;
    if ahead.past_byte(b'(').is_none() {
        return false;
    }
    if !ahead.past_keyword(b"carried") {
        return false;
    }
    *r = ahead;
    true
}

// `(carried C)` or `(cold LINK SKIP)`: the word behind the bracket is looked at first.
#[tactic(auto, using(value_read::proofs::Stopped::byte_stopped), unfolding(crate::specs::Values::read_outcome, value_text::specs::Reads::map, value_text::specs::Reads::then))]
pub(crate) fn take_outcome(r: &mut LineReader<'_>) -> Option<CarryOutcome>
    ensures { Reads r.old r.new result (read_outcome (rest r.old)) }
{
    if past_carried(r) {
        let carried = spaced_number(r)?;
        r.past_byte(b')')?;
        return Some(CarryOutcome::Carried(carried));
    }
    let cold = take_cold(r)?;
    Some(CarryOutcome::Cold(cold.link, cold.skip))
}

// `(OUTCOME REPORT)`
#[tactic(auto, using(value_read::proofs::Stopped::byte_stopped, value_read::proofs::Stopped::spaced_number_stopped, crate::proofs::Stopped::outcome_stopped), unfolding(crate::specs::Values::read_made))]
pub(crate) fn take_made(r: &mut LineReader<'_>) -> Option<Option<DeltaReport>>
    ensures { Reads r.old r.new result (read_made (rest r.old)) }
{
    r.past_byte(b'(')?;
    let outcome = take_outcome(r)?;
    let number = spaced_number(r)?;
    r.past_byte(b')')?;
    Some(Some(DeltaReport { outcome, number }))
}

// That, or `none`.
#[tactic(auto, unfolding(crate::specs::Values::read_report, value_text::specs::Reads::or_word, value_text::specs::Words::word_text))]
pub(crate) fn take_report(r: &mut LineReader<'_>) -> Option<Option<DeltaReport>>
    ensures { Reads r.old r.new result (read_report (rest r.old)) }
{
    if r.past_keyword(b"none") {
        return Some(None);
    }
    take_made(r)
}
