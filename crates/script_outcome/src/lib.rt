// Outcomes as text, into a lent buffer, for lines and sheets alike: one writer for each value.
// No hash stands in an outcome, so its text is the same on a line and on a sheet. Its code knows nothing of what
// holds an outcome; its definitions have the texts of reports, readiness, sources and ends too.
#![tactic(auto, using(text_put::proofs::Writers::wrote_both), unfolding(value_text::specs::Texts::skip_text, head_values::specs::Values::skip_value, value_text::specs::Values::value_text, value_text::specs::Words::word_text, crate::specs::Texts::cold_text, value_text::specs::Texts::fault_text, crate::specs::Texts::outcome_text, head_values::specs::Values::outcome_value))]

ghost use Rattle.script_outcome.specs.Texts.{cold_text, outcome_text};
ghost use Rattle.value_text.specs.Texts.{skip_text};
ghost use Rattle.text_put.specs.Writers.{Puts, Room};

use head_values::{BalSkip, CarryOutcome, Link};
use link_text::put_fault;
use number_text::put_named;
use text_put::TextWriter;

// Puts why a list was not read, or `none`.
pub(crate) fn put_skip(out: &mut TextWriter<'_>, skip: BalSkip)
    requires { Room out.old 29 }
    ensures { Puts out.old out.new 29 (skip_text skip) }
{
    match skip {
        BalSkip::Nothing => out.text(b"none"),
        BalSkip::NoHash => out.text(b"no-hash"),
        BalSkip::Rpc(n) => put_named(out, b"(rpc ", n),
        BalSkip::Decode(n) => put_named(out, b"(decode ", n),
    }
}

// Puts `(cold LINK SKIP)`.
pub(crate) fn put_cold(out: &mut TextWriter<'_>, link: Link, skip: BalSkip)
    requires { Room out.old 52 }
    ensures { Puts out.old out.new 52 (cold_text link skip) }
{
    out.text(b"(cold ");
    put_fault(out, link);
    out.byte(b' ');
    put_skip(out, skip);
    out.byte(b')');
}

// Puts `(carried C)` or `(cold LINK SKIP)`.
pub fn put_outcome(out: &mut TextWriter<'_>, outcome: CarryOutcome)
    requires { Room out.old 52 }
    ensures { Puts out.old out.new 52 (outcome_text outcome) }
{
    match outcome {
        CarryOutcome::Carried(c) => put_named(out, b"(carried ", c),
        CarryOutcome::Cold(link, skip) => put_cold(out, link, skip),
    }
}
