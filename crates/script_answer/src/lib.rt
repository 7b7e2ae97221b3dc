// Answers as lines, into the caller's buffer: those of calls, and those of lines that are no call or ask for a sheet.
// Knows nothing of calls, nor of the driver that answers them.
#![tactic(auto)]

ghost use Rattle.script_answer.specs.Answers.{answer_line, line_text};
ghost use Rattle.script_value.specs.Buffers.{AtFront};
ghost use Rattle.script_value.specs.Lines.{answer_text};
ghost use Rattle.text_put.specs.Writers.{Puts, Room};

use crate::lines::{put_claimed, put_ticket, put_view};
use crate::outcomes::put_head_outcome;
use head_driver::Answer;
use script_reads::lines::{put_completion, put_heads, put_link, put_report_line, put_stats_line};
use text_put::TextWriter;

mod lines;
mod outcomes;

// What a line is answered with. A sheet stands in the caller's buffer, this many bytes of it, and has no answer line. Refusals 1, 4 and 5 are answers as any
// other, so they are cases here and no error; 5 is for bytes that are not taken for a sheet, which no line asks for.
#[derive(Clone, Copy)]
pub enum LineAnswer {
    Said(Answer),
    NoCall,
    SheetTooShort,
    SheetNotTaken,
    Sheet(usize),
}

// No answer is longer than `heads`, 277 bytes; every one has the room that a host is asked for, but for the line feed.
// One match over all answers, in the order of document 01; an answer without values is a word or a refusal's number alone.
#[tactic(auto, unfolding(script_value::specs::Lines::answer_text, script_value::specs::Lines::said_text, head_driver::specs::Answers::said, script_value::specs::Lines::refusal_on, value_text::specs::Values::values_on, value_text::specs::Words::word_text, text::specs::Decimals::decimal, text::specs::Decimals::decimal_on))]
pub(crate) fn put_text(out: &mut TextWriter<'_>, answer: Answer)
    requires { Room out.old 511 }
    ensures { Puts out.old out.new 511 (answer_text answer) }
{
    match answer {
        Answer::Ticket(seq) => put_ticket(out, seq),
        Answer::Claimed(epoch) => put_claimed(out, epoch),
        Answer::Done => out.text(b"(done)"),
        Answer::Outcome(outcome) => put_head_outcome(out, outcome),
        Answer::View(view) => put_view(out, view),
        Answer::Parked => out.text(b"(parked)"),
        Answer::Completion(end) => put_completion(out, end),
        Answer::Link(link) => put_link(out, link),
        Answer::Report(report) => put_report_line(out, report),
        Answer::Stats(stats) => put_stats_line(out, stats),
        Answer::Heads(current, installed, previous) => put_heads(out, current, installed, previous),
        Answer::ListDisagrees => out.text(b"(refused 2)"),
        Answer::WaiterAbove15 => out.text(b"(refused 3)"),
        Answer::WaiterNotFree => out.text(b"(refused 15)"),
        Answer::WaiterFree => out.text(b"(refused 16)"),
    }
}

// Puts an answer's line.
#[tactic(auto, using(text_put::proofs::Writers::wrote_both), unfolding(crate::specs::Answers::answer_line))]
pub(crate) fn put_answer(out: &mut TextWriter<'_>, answer: Answer)
    requires { Room out.old 512 }
    ensures { Puts out.old out.new 512 (answer_line answer) }
{
    put_text(out, answer);
    out.byte(b'\n');
}

#[tactic(auto, using(text_put::proofs::Writers::wrote_nothing), unfolding(crate::specs::Answers::line_text))]
pub(crate) fn put_line_text(out: &mut TextWriter<'_>, answer: LineAnswer)
    requires { Room out.old 512 }
    ensures { Puts out.old out.new 512 (line_text answer) }
{
    match answer {
        LineAnswer::Said(said) => put_answer(out, said),
        LineAnswer::NoCall => out.text(b"(refused 1)\n"),
        LineAnswer::SheetTooShort => out.text(b"(refused 4)\n"),
        LineAnswer::SheetNotTaken => out.text(b"(refused 5)\n"),
        LineAnswer::Sheet(_) => {}
    }
}

// Writes the answer's line, with its line feed, at the front of a buffer of 512 bytes or more, and tells how many bytes
// these are. Every answer asks for the same room, so that a host that lends 512 bytes is never refused.
pub fn put_line(buf: &mut [u8], answer: LineAnswer) -> Option<usize>
    ensures { AtFront 512 buf.old buf.new (line_text answer) result }
{
    if buf.len() < 512 {
        return None;
    }
    let mut out = TextWriter { buf, at: 0 };
    put_line_text(&mut out, answer);
    Some(out.at)
}
