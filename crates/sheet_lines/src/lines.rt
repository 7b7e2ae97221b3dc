// The lines of the counters and of the superseded anchor, each with its line feed.
#![tactic(auto, using(text_put::proofs::Writers::wrote_both), unfolding(crate::specs::Lines::count_line, crate::specs::Lines::superseded_line))]

ghost use Rattle.sheet_lines.specs.Lines.{count_line, superseded_line};
ghost use Rattle.text_put.specs.Writers.{Puts, Room};

use head_count::{Epoch, HeadStats};
use head_values::ReadAnchor;
use script_value::counters::{put_spaced, put_stats};
use slot_text::put_slot;
use text_put::TextWriter;

// Puts the eight counters, then the epoch.
pub(crate) fn put_count(out: &mut TextWriter<'_>, stats: HeadStats, epoch: Epoch)
    requires { Room out.old 197 }
    ensures { Puts out.old out.new 197 (count_line stats epoch) }
{
    out.text(b"(count");
    put_stats(out, stats);
    put_spaced(out, epoch.0);
    out.text(b")\n");
}

pub(crate) fn put_superseded(out: &mut TextWriter<'_>, superseded: Option<ReadAnchor>)
    requires { Room out.old 103 }
    ensures { Puts out.old out.new 103 (superseded_line superseded) }
{
    out.text(b"(superseded ");
    put_slot(out, superseded);
    out.text(b")\n");
}
