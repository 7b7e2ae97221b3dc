// Readiness as text into a lent buffer, for lines and sheets alike: a settled head that is cold tells of its outcome.
// Knows nothing of an answer's line, nor of a sheet's.
#![tactic(auto, unfolding(script_outcome::specs::Texts::reason_text, head_ready::specs::Said::readiness_value, value_text::specs::Values::value_text, value_text::specs::Words::word_text, script_outcome::specs::Texts::outcome_text, head_values::specs::Values::outcome_value, script_outcome::specs::Texts::readiness_text))]

ghost use Rattle.script_outcome.specs.Texts.{reason_text, readiness_text};
ghost use Rattle.text_put.specs.Writers.{Puts, Room};

use head_ready::{HeadCold, HeadReadiness};
use head_values::CarryOutcome;
use script_outcome::put_outcome;
use text_put::TextWriter;

// Puts why a view is cold. A settled head's reason is written as its outcome is.
pub(crate) fn put_reason(out: &mut TextWriter<'_>, reason: HeadCold)
    requires { Room out.old 52 }
    ensures { Puts out.old out.new 52 (reason_text reason) }
{
    match reason {
        HeadCold::Unprepared => out.text(b"unprepared"),
        HeadCold::Superseded => out.text(b"superseded"),
        HeadCold::Undelivered => out.text(b"undelivered"),
        HeadCold::Abandoned => out.text(b"abandoned"),
        HeadCold::Settled(link, skip) => put_outcome(out, CarryOutcome::Cold(link, skip)),
    }
}

// Puts `ready`, or why not.
pub fn put_readiness(out: &mut TextWriter<'_>, readiness: HeadReadiness)
    requires { Room out.old 52 }
    ensures { Puts out.old out.new 52 (readiness_text readiness) }
{
    match readiness {
        HeadReadiness::Ready => out.text(b"ready"),
        HeadReadiness::Cold(reason) => put_reason(out, reason),
    }
}
