// Call lines: from the bytes of a line to the call that they write, or to no call. The values of a call are read in `spaced` and by `value_read`.
// A reader that hands back `None` has found the line to be no call, so where it stands then is left open.
// Knows nothing of what a call does, nor of answers.
#![tactic(auto)]

ghost use Rattle.std.specs.Prelude.{◌≡◌};
ghost use Rattle.line_reader.specs.Reads.{rest, Reads};
ghost use Rattle.script_call.specs.Calls.{ends, closed, spaced_ticket, spaced_list, deliver_call, claim_call, release_call, apply_call, snapshot_call, wait_call, resume_call, completion_call, link_call, call_named, call};

use crate::spaced::{spaced_anchor, spaced_hash, spaced_skip, spaced_slot};
use head_call::Call;
use head_count::{Epoch, Seq};
use head_current::{HeadTicket, PrepareClaim};
use head_values::PreparedBal;
use line_reader::LineReader;
use value_read::number::spaced_number;

mod spaced;

// What a line asks for: two kinds, neither of which is none. The sheet is no call on the driver: it is written into the caller's buffer.
#[derive(Clone, Copy)]
pub enum LineCall {
    Sheet,
    Make(Call),
}

// Whether one bracket is all that is left of the line.
#[tactic(auto, using(crate::proofs::Stopped::end_stopped), unfolding(crate::specs::Calls::ends))]
pub(crate) fn ends(r: &mut LineReader<'_>) -> bool
    ensures { result ≡ ends (rest r.old) }
{
    r.past_byte(b')').is_some() && r.at_end()
}

// The call, where the line ends with it.
#[tactic(auto, unfolding(crate::specs::Calls::closed))]
pub(crate) fn closed(r: &mut LineReader<'_>, read: Call) -> Option<LineCall>
    ensures { result ≡ closed (rest r.old) read }
{
    ends(r).then_some(LineCall::Make(read))
}

// ` A SEQ`: a delivery, as a claim and an apply name it.
#[tactic(auto, using(value_read::proofs::Stopped::spaced_number_stopped), unfolding(crate::specs::Calls::spaced_ticket))]
pub(crate) fn spaced_ticket(r: &mut LineReader<'_>) -> Option<HeadTicket>
    ensures { Reads r.old r.new result (spaced_ticket (rest r.old)) }
{
    let anchor = spaced_anchor(r)?;
    let seq = Seq(spaced_number(r)?);
    Some(HeadTicket { anchor, seq })
}

// ` A X`: the list that an apply takes.
#[tactic(auto, using(crate::proofs::Stopped::spaced_skip_stopped), unfolding(crate::specs::Calls::spaced_list))]
pub(crate) fn spaced_list(r: &mut LineReader<'_>) -> Option<PreparedBal>
    ensures { Reads r.old r.new result (spaced_list (rest r.old)) }
{
    let anchor = spaced_anchor(r)?;
    let skip = spaced_skip(r)?;
    Some(PreparedBal { anchor, skip })
}

// `(deliver A P H)`, after its keyword. Each call has a function, so that its form is read beside its name; some are alike but for a value's type.
#[tactic(auto, using(crate::proofs::Stopped::spaced_hash_stopped, value_read::proofs::Stopped::spaced_number_stopped, crate::proofs::Stopped::closed_stopped), unfolding(crate::specs::Calls::deliver_call))]
pub(crate) fn deliver_call(r: &mut LineReader<'_>) -> Option<LineCall>
    ensures { result ≡ deliver_call (rest r.old) }
{
    let anchor = spaced_anchor(r)?;
    let parent_hash = spaced_hash(r)?;
    let cold = spaced_number(r)?;
    closed(r, Call::Deliver(anchor, parent_hash, cold))
}

// `(claim A SEQ)`
#[tactic(auto, using(crate::proofs::Stopped::closed_stopped), unfolding(crate::specs::Calls::claim_call))]
pub(crate) fn claim_call(r: &mut LineReader<'_>) -> Option<LineCall>
    ensures { result ≡ claim_call (rest r.old) }
{
    let ticket = spaced_ticket(r)?;
    closed(r, Call::Claim(ticket))
}

// `(release SEQ EPOCH)`
#[tactic(auto, using(value_read::proofs::Stopped::spaced_number_stopped, crate::proofs::Stopped::closed_stopped), unfolding(crate::specs::Calls::release_call))]
pub(crate) fn release_call(r: &mut LineReader<'_>) -> Option<LineCall>
    ensures { result ≡ release_call (rest r.old) }
{
    let seq = Seq(spaced_number(r)?);
    let epoch = Epoch(spaced_number(r)?);
    closed(r, Call::Release(PrepareClaim { seq, epoch }))
}

// `(apply A SEQ A X H C REPORT)`
#[tactic(auto, using(crate::proofs::Stopped::spaced_list_stopped, value_read::proofs::Stopped::spaced_number_stopped, crate::proofs::Stopped::closed_stopped), unfolding(crate::specs::Calls::apply_call))]
pub(crate) fn apply_call(r: &mut LineReader<'_>) -> Option<LineCall>
    ensures { result ≡ apply_call (rest r.old) }
{
    let ticket = spaced_ticket(r)?;
    let list = spaced_list(r)?;
    let handle = spaced_number(r)?;
    let carried = spaced_number(r)?;
    let report = spaced_number(r)?;
    closed(r, Call::Apply(ticket, list, handle, carried, report))
}

// `(snapshot A H)`
#[tactic(auto, using(value_read::proofs::Stopped::spaced_number_stopped, crate::proofs::Stopped::closed_stopped), unfolding(crate::specs::Calls::snapshot_call))]
pub(crate) fn snapshot_call(r: &mut LineReader<'_>) -> Option<LineCall>
    ensures { result ≡ snapshot_call (rest r.old) }
{
    let anchor = spaced_anchor(r)?;
    let spare = spaced_number(r)?;
    closed(r, Call::Snapshot(anchor, spare))
}

// `(wait N A H)`
#[tactic(auto, using(crate::proofs::Stopped::spaced_anchor_stopped, value_read::proofs::Stopped::spaced_number_stopped, crate::proofs::Stopped::closed_stopped), unfolding(crate::specs::Calls::wait_call))]
pub(crate) fn wait_call(r: &mut LineReader<'_>) -> Option<LineCall>
    ensures { result ≡ wait_call (rest r.old) }
{
    let waiter = spaced_number(r)?;
    let anchor = spaced_anchor(r)?;
    let spare = spaced_number(r)?;
    closed(r, Call::Wait(waiter, anchor, spare))
}

// `(resume N H)`
#[tactic(auto, using(value_read::proofs::Stopped::spaced_number_stopped, crate::proofs::Stopped::closed_stopped), unfolding(crate::specs::Calls::resume_call))]
pub(crate) fn resume_call(r: &mut LineReader<'_>) -> Option<LineCall>
    ensures { result ≡ resume_call (rest r.old) }
{
    let waiter = spaced_number(r)?;
    let spare = spaced_number(r)?;
    closed(r, Call::Resume(waiter, spare))
}

// `(completion A)`
#[tactic(auto, using(crate::proofs::Stopped::closed_stopped), unfolding(crate::specs::Calls::completion_call))]
pub(crate) fn completion_call(r: &mut LineReader<'_>) -> Option<LineCall>
    ensures { result ≡ completion_call (rest r.old) }
{
    let anchor = spaced_anchor(r)?;
    closed(r, Call::Completion(anchor))
}

// `(link A A P)` or `(link none A P)`
#[tactic(auto, using(crate::proofs::Stopped::spaced_anchor_stopped, crate::proofs::Stopped::spaced_hash_stopped, crate::proofs::Stopped::closed_stopped), unfolding(crate::specs::Calls::link_call))]
pub(crate) fn link_call(r: &mut LineReader<'_>) -> Option<LineCall>
    ensures { result ≡ link_call (rest r.old) }
{
    let parent = spaced_slot(r)?;
    let anchor = spaced_anchor(r)?;
    let parent_hash = spaced_hash(r)?;
    closed(r, Call::Link(parent, anchor, parent_hash))
}

// The call of a keyword, with the reader after it: in document 01's order.
#[tactic(auto, using(value_read::proofs::Keywords::same_bytes, value_read::proofs::Keywords::other_length, value_read::proofs::Keywords::other_byte), unfolding(crate::specs::Calls::call_named, crate::specs::Calls::later_named, crate::specs::Calls::report_call, crate::specs::Calls::stats_call, crate::specs::Calls::heads_call, crate::specs::Calls::sheet_call))]
pub(crate) fn by_word(word: &[u8], r: &mut LineReader<'_>) -> Option<LineCall>
    ensures { result ≡ call_named word.now (rest r.old) }
{
    match word {
        b"deliver" => deliver_call(r),
        b"claim" => claim_call(r),
        b"release" => release_call(r),
        b"apply" => apply_call(r),
        b"snapshot" => snapshot_call(r),
        b"wait" => wait_call(r),
        b"resume" => resume_call(r),
        b"completion" => completion_call(r),
        b"link" => link_call(r),
        b"report" => closed(r, Call::Report),
        b"stats" => closed(r, Call::Stats),
        b"heads" => closed(r, Call::Heads),
        b"sheet" => ends(r).then_some(LineCall::Sheet),
        _ => None,
    }
}

// The call of a line, which comes without its line feed. An empty line has no bracket, and so is no call. No call is longer than 301 bytes; 512 is document 01's limit for a line.
#[tactic(auto, using(crate::proofs::Lines::line_long, crate::proofs::Lines::line_is, crate::proofs::Lines::line_stopped))]
pub fn read_call(line: &[u8]) -> Option<LineCall>
    ensures { result ≡ call line.now }
{
    if line.len() > 512 {
        return None;
    }
    let mut r = LineReader::new(line, 0);
    r.past_byte(b'(')?;
    let word = r.take_word();
    by_word(word, &mut r)
}
