// Reports as text into a lent buffer, for lines and sheets alike.
// Knows nothing of an answer's line, nor of a sheet's.
#![tactic(auto)]

ghost use Rattle.script_outcome.specs.Texts.{report_text};
ghost use Rattle.text_put.specs.Writers.{Puts, Room};

use head_current::DeltaReport;
use number_text::put_decimal;
use script_outcome::put_outcome;
use text_put::TextWriter;

// Puts `(OUTCOME REPORT)`, or `none`.
#[tactic(auto, using(text_put::proofs::Writers::wrote_both), unfolding(script_outcome::specs::Texts::report_text, head_current::specs::Said::report_value, script_outcome::specs::Texts::outcome_text, value_text::specs::Values::value_text, value_text::specs::Words::word_text))]
pub fn put_report(out: &mut TextWriter<'_>, report: Option<DeltaReport>)
    requires { Room out.old 75 }
    ensures { Puts out.old out.new 75 (report_text report) }
{
    match report {
        None => out.text(b"none"),
        Some(report) => {
            out.byte(b'(');
            put_outcome(out, report.outcome);
            out.byte(b' ');
            put_decimal(out, report.number);
            out.byte(b')');
        }
    }
}
