// The lines of the installed and of the previous generation.
ghost use Rattle.line_reader.specs.Reads.{rest, Reads};
ghost use Rattle.text.specs.Ascii.{ascii};
ghost use Rattle.text.specs.Rests.{after};
ghost use Rattle.value_text.specs.Reads.{then};
ghost use Rattle.sheet_read.specs.Heads.{read_generation, read_held, read_installed, read_kept_readiness, read_previous};

use crate::outcome::take_cold;
use head_count::Seq;
use head_ready::{Generation, HeadCold, HeadReadiness};
use line_reader::LineReader;
use value_read::anchor::take_anchor;
use value_read::given::past_text;
use value_read::number::spaced_number;
use value_text::page::Page;

// `ready` or `(cold LINK SKIP)`: a generation is as an apply gave it.
#[tactic(auto, unfolding(crate::specs::Heads::read_kept_readiness, value_text::specs::Reads::or_word, value_text::specs::Reads::map, value_text::specs::Words::word_text))]
pub(crate) fn take_kept_readiness(r: &mut LineReader<'_>) -> Option<HeadReadiness>
    ensures { Reads r.old r.new result (read_kept_readiness (rest r.old)) }
{
    if r.past_keyword(b"ready") {
        return Some(HeadReadiness::Ready);
    }
    let cold = take_cold(r)?;
    Some(HeadReadiness::Cold(HeadCold::Settled(cold.link, cold.skip)))
}

// `A H N READINESS`
#[tactic(auto, using(value_read::proofs::Stopped::byte_stopped, value_read::proofs::Stopped::spaced_number_stopped, value_read::proofs::Stopped::anchor_stopped, crate::proofs::Stopped::kept_readiness_stopped), unfolding(crate::specs::Heads::read_held))]
pub(crate) fn take_held(r: &mut LineReader<'_>) -> Option<Option<Generation>>
    ensures { Reads r.old r.new result (read_held (rest r.old)) }
{
    let anchor = take_anchor(r, Page::Sheet)?;
    let handle = spaced_number(r)?;
    let seq = Seq(spaced_number(r)?);
    r.past_byte(b' ')?;
    let readiness = take_kept_readiness(r)?;
    Some(Some(Generation {
        anchor,
        handle,
        seq,
        readiness,
    }))
}

// That, or `none`.
#[tactic(auto, unfolding(crate::specs::Heads::read_generation, value_text::specs::Reads::or_word, value_text::specs::Words::word_text))]
pub(crate) fn take_generation(r: &mut LineReader<'_>) -> Option<Option<Generation>>
    ensures { Reads r.old r.new result (read_generation (rest r.old)) }
{
    if r.past_keyword(b"none") {
        return Some(None);
    }
    take_held(r)
}

// A line that begins with a bracket and the generation's name.
#[tactic(auto, using(crate::proofs::Stopped::text_stopped, crate::proofs::Stopped::generation_stopped), unfolding(value_text::specs::Reads::then))]
pub(crate) fn take_line(r: &mut LineReader<'_>, name: &[u8]) -> Option<Option<Generation>>
    ensures { Reads r.old r.new result (then (ascii ")\n") (read_generation (after name.now (rest r.old)))) }
{
    past_text(r, name)?;
    let slot = take_generation(r)?;
    past_text(r, b")\n")?;
    Some(slot)
}

#[tactic(auto, unfolding(crate::specs::Heads::read_installed))]
pub(crate) fn take_installed(r: &mut LineReader<'_>) -> Option<Option<Generation>>
    ensures { Reads r.old r.new result (read_installed (rest r.old)) }
{
    take_line(r, b"(installed ")
}

#[tactic(auto, unfolding(crate::specs::Heads::read_previous))]
pub(crate) fn take_previous(r: &mut LineReader<'_>) -> Option<Option<Generation>>
    ensures { Reads r.old r.new result (read_previous (rest r.old)) }
{
    take_line(r, b"(previous ")
}
