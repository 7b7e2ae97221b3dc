// The lines of the answers of calls that only read, each without its line feed.
// A bracket, a word and the value, in three lines each: one function over a writer handed in would need that writer's contract written out.
#![tactic(auto, using(text_put::proofs::Writers::wrote_both), unfolding(script_outcome::specs::Texts::end_text, head_attempt::specs::Said::end_value, value_text::specs::Values::value_text, value_text::specs::Words::word_text, value_text::specs::Texts::fault_text, value_text::specs::Texts::link_text, head_values::specs::Values::fault_value, head_values::specs::Values::link_value, script_value::specs::Lines::answer_text, script_value::specs::Lines::said_text, head_driver::specs::Answers::said, script_value::specs::Lines::refusal_on, value_text::specs::Values::values_on, script_outcome::specs::Texts::report_text, value_text::specs::Texts::slot_text))]

ghost use Rattle.head_driver.specs.declared.Answer.{Answer};
ghost use Rattle.script_outcome.specs.Texts.{end_text};
ghost use Rattle.script_value.specs.Lines.{answer_text};
ghost use Rattle.text_put.specs.Writers.{Puts, Room};
ghost use Rattle.value_text.specs.Texts.{link_text};

use head_attempt::HeadCompletion;
use head_count::HeadStats;
use head_current::DeltaReport;
use head_values::{Link, ReadAnchor};
use link_text::put_fault;
use script_report::put_report;
use script_value::counters::put_stats;
use slot_text::put_slot;
use text_put::TextWriter;

// Puts how an attempt ended, or `none`.
pub(crate) fn put_end(out: &mut TextWriter<'_>, end: HeadCompletion)
    requires { Room out.old 10 }
    ensures { Puts out.old out.new 10 (end_text end) }
{
    match end {
        HeadCompletion::Open => out.text(b"none"),
        HeadCompletion::Settled => out.text(b"settled"),
        HeadCompletion::Superseded => out.text(b"superseded"),
        HeadCompletion::Abandoned => out.text(b"abandoned"),
    }
}

// Its word is longer than the checker's `grind` reads, so it has a list of its own, with the writer opened.
#[tactic(auto, using(text_put::proofs::Writers::wrote_both), unfolding(script_value::specs::Lines::answer_text, script_value::specs::Lines::said_text, head_driver::specs::Answers::said, script_value::specs::Lines::refusal_on, value_text::specs::Values::values_on, value_text::specs::Words::word_text, script_outcome::specs::Texts::end_text, value_text::specs::Values::value_text, head_attempt::specs::Said::end_value, text_put::specs::Writers::wrote))]
pub fn put_completion(out: &mut TextWriter<'_>, end: HeadCompletion)
    requires { Room out.old 23 }
    ensures { Puts out.old out.new 23 (answer_text (Answer.Completion end)) }
{
    out.text(b"(completion ");
    put_end(out, end);
    out.byte(b')');
}

// Puts how a link stands: `linked`, or what is wrong with it.
pub(crate) fn put_link_word(out: &mut TextWriter<'_>, link: Link)
    requires { Room out.old 15 }
    ensures { Puts out.old out.new 15 (link_text link) }
{
    match link {
        Link::Linked => out.text(b"linked"),
        _ => put_fault(out, link),
    }
}

pub fn put_link(out: &mut TextWriter<'_>, link: Link)
    requires { Room out.old 22 }
    ensures { Puts out.old out.new 22 (answer_text (Answer.Link link)) }
{
    out.text(b"(link ");
    put_link_word(out, link);
    out.byte(b')');
}

pub fn put_report_line(out: &mut TextWriter<'_>, report: Option<DeltaReport>)
    requires { Room out.old 84 }
    ensures { Puts out.old out.new 84 (answer_text (Answer.Report report)) }
{
    out.text(b"(report ");
    put_report(out, report);
    out.byte(b')');
}

#[tactic(auto, using(text_put::proofs::Writers::wrote_both, crate::proofs::Statistics::stats_line))]
pub fn put_stats_line(out: &mut TextWriter<'_>, stats: HeadStats)
    requires { Room out.old 175 }
    ensures { Puts out.old out.new 175 (answer_text (Answer.Stats stats)) }
{
    out.text(b"(stats");
    put_stats(out, stats);
    out.byte(b')');
}

pub fn put_heads(
    out: &mut TextWriter<'_>,
    current: Option<ReadAnchor>,
    installed: Option<ReadAnchor>,
    previous: Option<ReadAnchor>,
)
    requires { Room out.old 277 }
    ensures { Puts out.old out.new 277 (answer_text (Answer.Heads current installed previous)) }
{
    out.text(b"(heads ");
    put_slot(out, current);
    out.byte(b' ');
    put_slot(out, installed);
    out.byte(b' ');
    put_slot(out, previous);
    out.byte(b')');
}
