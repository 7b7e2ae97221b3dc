// The lines of a sheet, and the writers of its first three, each with its line feed, into a lent buffer: the counters, the current head, the superseded anchor.
// Knows nothing of what a sheet leaves out.
#![tactic(auto, using(text_put::proofs::Writers::wrote_both), unfolding(crate::specs::Lines::unclaimed_end_text, crate::specs::Lines::delivery_text, crate::specs::Lines::unsettled_text, crate::specs::Lines::current_line))]

ghost use Rattle.std.specs.Prelude.{◌++◌};
ghost use Rattle.script_outcome.specs.Texts.{report_text};
ghost use Rattle.sheet_lines.specs.Lines.{unclaimed_end_text, delivery_text, unsettled_text, count_line, current_line, superseded_line};
ghost use Rattle.text.specs.Ascii.{ascii};
ghost use Rattle.text_put.specs.Writers.{Puts, Room};

use crate::lines::{put_count, put_superseded};
use hash_text::put_hash;
use head_attempt::HeadCompletion;
use head_count::{Epoch, HeadStats};
use head_current::{CurrentHead, DeltaReport, HeadDelivery, SettledHead, UnsettledHead};
use head_values::ReadAnchor;
use script_report::put_report;
use script_value::counters::put_spaced;
use text_put::TextWriter;
use value_text::anchor::put_anchor;

mod lines;

// Puts how an unclaimed head's attempt stands, and the end of its line.
pub(crate) fn put_unclaimed_end(out: &mut TextWriter<'_>, end: HeadCompletion)
    requires { Room out.old 12 }
    ensures { Puts out.old out.new 12 (ascii " " ++ (unclaimed_end_text end ++ ascii ")\n")) }
{
    match end {
        HeadCompletion::Abandoned => out.text(b" abandoned)\n"),
        _ => out.text(b" open)\n"),
    }
}

// Puts `A P`.
pub(crate) fn put_delivery(out: &mut TextWriter<'_>, held: HeadDelivery)
    requires { Room out.old 156 }
    ensures { Puts out.old out.new 156 (delivery_text held) }
{
    put_anchor(out, held.anchor);
    out.byte(b' ');
    put_hash(out, held.parent_hash);
}

// Puts `A P H`.
pub(crate) fn put_unsettled(out: &mut TextWriter<'_>, head: UnsettledHead)
    requires { Room out.old 177 }
    ensures { Puts out.old out.new 177 (unsettled_text head) }
{
    put_delivery(out, head.delivery);
    put_spaced(out, head.provisional);
}

pub(crate) fn put_unclaimed(out: &mut TextWriter<'_>, head: UnsettledHead)
    requires { Room out.old 208 }
    ensures { Puts out.old out.new 208 (current_line (CurrentHead.Unclaimed head)) }
{
    out.text(b"(current unclaimed ");
    put_unsettled(out, head);
    put_unclaimed_end(out, head.attempt.end);
}

pub(crate) fn put_preparing(out: &mut TextWriter<'_>, head: UnsettledHead)
    requires { Room out.old 198 }
    ensures { Puts out.old out.new 198 (current_line (CurrentHead.Preparing head)) }
{
    out.text(b"(current preparing ");
    put_unsettled(out, head);
    out.text(b")\n");
}

// Puts a settled head's report, and the end of its line.
pub(crate) fn put_told(out: &mut TextWriter<'_>, report: Option<DeltaReport>)
    requires { Room out.old 78 }
    ensures { Puts out.old out.new 78 (ascii " " ++ (report_text report ++ ascii ")\n")) }
{
    out.byte(b' ');
    put_report(out, report);
    out.text(b")\n");
}

pub(crate) fn put_settled(out: &mut TextWriter<'_>, head: SettledHead)
    requires { Room out.old 251 }
    ensures { Puts out.old out.new 251 (current_line (CurrentHead.Settled head)) }
{
    out.text(b"(current settled ");
    put_delivery(out, head.delivery);
    put_told(out, head.report);
}

pub(crate) fn put_current(out: &mut TextWriter<'_>, current: CurrentHead)
    requires { Room out.old 251 }
    ensures { Puts out.old out.new 251 (current_line current) }
{
    match current {
        CurrentHead::Absent => out.text(b"(current none)\n"),
        CurrentHead::Unclaimed(head) => put_unclaimed(out, head),
        CurrentHead::Preparing(head) => put_preparing(out, head),
        CurrentHead::Settled(head) => put_settled(out, head),
    }
}

// Puts the lines from the counters' to the superseded anchor's.
pub fn put_count_to_superseded(
    out: &mut TextWriter<'_>,
    stats: HeadStats,
    epoch: Epoch,
    current: CurrentHead,
    superseded: Option<ReadAnchor>,
)
    requires { Room out.old 551 }
    ensures { Puts out.old out.new 551 (count_line stats epoch ++ (current_line current ++ superseded_line superseded)) }
{
    put_count(out, stats, epoch);
    put_current(out, current);
    put_superseded(out, superseded);
}
