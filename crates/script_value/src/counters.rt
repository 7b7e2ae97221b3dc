// The eight counters as text.
ghost use Rattle.script_value.specs.Texts.{spaced_text, four_text, stats_text};
ghost use Rattle.text_put.specs.Writers.{Puts, Room};

use head_count::HeadStats;
use number_text::put_decimal;
use text_put::TextWriter;

// Puts ` N`.
#[tactic(auto, using(text_put::proofs::Writers::wrote_both), unfolding(crate::specs::Texts::spaced_text))]
pub fn put_spaced(out: &mut TextWriter<'_>, n: u64)
    requires { Room out.old 21 }
    ensures { Puts out.old out.new 21 (spaced_text n) }
{
    out.byte(b' ');
    put_decimal(out, n);
}

#[tactic(auto, using(text_put::proofs::Writers::wrote_both), unfolding(crate::specs::Texts::four_text))]
pub(crate) fn put_four(out: &mut TextWriter<'_>, a: u64, b: u64, c: u64, d: u64)
    requires { Room out.old 84 }
    ensures { Puts out.old out.new 84 (four_text a b c d) }
{
    put_spaced(out, a);
    put_spaced(out, b);
    put_spaced(out, c);
    put_spaced(out, d);
}

// Puts the counters in order, each after a space.
#[tactic(auto, using(text_put::proofs::Writers::wrote_both, crate::proofs::Halves::stats_split))]
pub fn put_stats(out: &mut TextWriter<'_>, s: HeadStats)
    requires { Room out.old 168 }
    ensures { Puts out.old out.new 168 (stats_text s) }
{
    put_four(out, s.delivered, s.repeated, s.superseded, s.settled);
    put_four(
        out,
        s.already_current,
        s.discarded,
        s.ready_views,
        s.cold_views,
    );
}
