// Tickets, claims and views, each without its line feed.
#![tactic(auto, using(text_put::proofs::Writers::wrote_both), unfolding(script_value::specs::Lines::answer_text, script_value::specs::Lines::said_text, head_driver::specs::Answers::said, script_value::specs::Lines::refusal_on, value_text::specs::Values::values_on, value_text::specs::Values::value_text, value_text::specs::Words::word_text, script_outcome::specs::Texts::source_text, head_ready::specs::Said::source_value, script_outcome::specs::Texts::readiness_text))]

ghost use Rattle.head_driver.specs.declared.Answer.{Answer};
ghost use Rattle.script_value.specs.Lines.{answer_text};
ghost use Rattle.script_outcome.specs.Texts.{settle_number_text, source_text};
ghost use Rattle.text_put.specs.Writers.{Puts, Room};

use head_count::{Epoch, Seq};
use head_ready::{HeadView, Source};
use number_text::put_named;
use script_ready::put_readiness;
use script_value::counters::put_spaced;
use text_put::TextWriter;

pub(crate) fn put_ticket(out: &mut TextWriter<'_>, seq: Seq)
    requires { Room out.old 29 }
    ensures { Puts out.old out.new 29 (answer_text (Answer.Ticket seq)) }
{
    put_named(out, b"(ticket ", seq.0);
}

pub(crate) fn put_claimed(out: &mut TextWriter<'_>, epoch: Epoch)
    requires { Room out.old 30 }
    ensures { Puts out.old out.new 30 (answer_text (Answer.Claimed epoch)) }
{
    put_named(out, b"(claimed ", epoch.0);
}

pub(crate) fn put_source(out: &mut TextWriter<'_>, source: Source)
    requires { Room out.old 11 }
    ensures { Puts out.old out.new 11 (source_text source) }
{
    match source {
        Source::Installed(_) => out.text(b"installed"),
        Source::Provisional => out.text(b"provisional"),
        Source::Previous(_) => out.text(b"previous"),
        Source::Spare => out.text(b"spare"),
    }
}

// The number under which a generation settled, after a space; a view from elsewhere has none.
#[tactic(auto, using(text_put::proofs::Writers::wrote_nothing), unfolding(script_outcome::specs::Texts::settle_number_text, script_value::specs::Texts::spaced_text))]
pub(crate) fn put_settle_number(out: &mut TextWriter<'_>, source: Source)
    requires { Room out.old 21 }
    ensures { Puts out.old out.new 21 (settle_number_text source) }
{
    match source {
        Source::Installed(seq) | Source::Previous(seq) => put_spaced(out, seq.0),
        Source::Provisional | Source::Spare => {}
    }
}

// The one place where what follows a view's handle is written.
#[tactic(auto, using(text_put::proofs::Writers::wrote_both, crate::proofs::Views::view_line))]
pub(crate) fn put_view(out: &mut TextWriter<'_>, view: HeadView)
    requires { Room out.old 113 }
    ensures { Puts out.old out.new 113 (answer_text (Answer.View view)) }
{
    out.text(b"(view ");
    put_source(out, view.source);
    put_spaced(out, view.handle);
    put_settle_number(out, view.source);
    out.byte(b' ');
    put_readiness(out, view.readiness);
    out.byte(b')');
}
