// The answers of an apply or a claim: what it settled, or why the state turned it away. A bracket, a word and the value each, as in `script_reads`.
#![tactic(auto, using(text_put::proofs::Writers::wrote_both), unfolding(script_value::specs::Lines::answer_text, script_value::specs::Lines::said_text, head_driver::specs::Answers::said, script_value::specs::Lines::refusal_on, value_text::specs::Values::values_on, value_text::specs::Values::value_text, value_text::specs::Words::word_text, head_ready::specs::Said::outcome_said, script_outcome::specs::Texts::outcome_text, value_text::specs::Texts::anchor_text))]

ghost use Rattle.std.specs.Prelude.{◌++◌};
ghost use Rattle.script_value.specs.Lines.{answer_text};
ghost use Rattle.text.specs.Ascii.{ascii};
ghost use Rattle.text.specs.Decimals.{decimal};
ghost use Rattle.text_put.specs.Writers.{Puts, Room};
ghost use Rattle.head_driver.specs.declared.Answer.{Answer};

use head_ready::HeadOutcome;
use head_values::{CarryOutcome, ReadAnchor};
use number_text::{put_decimal, put_named};
use script_outcome::put_outcome;
use text_put::TextWriter;
use value_text::anchor::put_anchor;

// Puts `(refused N`, as every refusal begins.
pub(crate) fn put_refusal(out: &mut TextWriter<'_>, n: u64)
    requires { Room out.old 29 }
    ensures { Puts out.old out.new 29 (ascii "(refused " ++ decimal n) }
{
    out.text(b"(refused ");
    put_decimal(out, n);
}

pub(crate) fn put_settled(out: &mut TextWriter<'_>, outcome: CarryOutcome)
    requires { Room out.old 62 }
    ensures { Puts out.old out.new 62 (answer_text (Answer.Outcome (HeadOutcome.Settled outcome))) }
{
    out.text(b"(settled ");
    put_outcome(out, outcome);
    out.byte(b')');
}

pub(crate) fn put_superseded(out: &mut TextWriter<'_>, anchor: ReadAnchor)
    requires { Room out.old 120 }
    ensures { Puts out.old out.new 120 (answer_text (Answer.Outcome (HeadOutcome.Superseded anchor))) }
{
    put_refusal(out, 11);
    out.byte(b' ');
    put_anchor(out, anchor);
    out.byte(b')');
}

pub(crate) fn put_foreign(out: &mut TextWriter<'_>, list: ReadAnchor, held: ReadAnchor)
    requires { Room out.old 210 }
    ensures { Puts out.old out.new 210 (answer_text (Answer.Outcome (HeadOutcome.Foreign list held))) }
{
    put_refusal(out, 12);
    out.byte(b' ');
    put_anchor(out, list);
    out.byte(b' ');
    put_anchor(out, held);
    out.byte(b')');
}

pub(crate) fn put_head_outcome(out: &mut TextWriter<'_>, outcome: HeadOutcome)
    requires { Room out.old 210 }
    ensures { Puts out.old out.new 210 (answer_text (Answer.Outcome outcome)) }
{
    match outcome {
        HeadOutcome::Settled(settled) => put_settled(out, settled),
        HeadOutcome::AlreadySettled => put_named(out, b"(refused ", 13),
        HeadOutcome::InFlight => put_named(out, b"(refused ", 14),
        HeadOutcome::Superseded(anchor) => put_superseded(out, anchor),
        HeadOutcome::Foreign(list, held) => put_foreign(out, list, held),
    }
}
