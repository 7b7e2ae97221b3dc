// The count line: eight counters, then the epoch.
ghost use Rattle.line_reader.specs.Reads.{rest, Reads};
ghost use Rattle.sheet_read.specs.Heads.{read_count};
ghost use Rattle.sheet_read.specs.Values.{read_stats};

use head_count::{Epoch, HeadStats};
use line_reader::LineReader;
use value_read::given::past_text;
use value_read::number::spaced_number;

#[derive(Clone, Copy)]
pub struct Counts {
    pub stats: HeadStats,
    pub epoch: Epoch,
}

// Eight counters, each after one space.
#[tactic(auto, using(value_read::proofs::Stopped::spaced_number_stopped), unfolding(crate::specs::Values::read_stats))]
pub(crate) fn take_stats(r: &mut LineReader<'_>) -> Option<HeadStats>
    ensures { Reads r.old r.new result (read_stats (rest r.old)) }
{
    let delivered = spaced_number(r)?;
    let repeated = spaced_number(r)?;
    let superseded = spaced_number(r)?;
    let settled = spaced_number(r)?;
    let already_current = spaced_number(r)?;
    let discarded = spaced_number(r)?;
    let ready_views = spaced_number(r)?;
    let cold_views = spaced_number(r)?;
    Some(HeadStats {
        delivered,
        repeated,
        superseded,
        settled,
        already_current,
        discarded,
        ready_views,
        cold_views,
    })
}

#[tactic(auto, using(value_read::proofs::Stopped::spaced_number_stopped, crate::proofs::Stopped::text_stopped, crate::proofs::Stopped::stats_stopped), unfolding(crate::specs::Heads::read_count))]
pub(crate) fn take_count(r: &mut LineReader<'_>) -> Option<Counts>
    ensures { Reads r.old r.new result (read_count (rest r.old)) }
{
    past_text(r, b"(count")?;
    let stats = take_stats(r)?;
    let epoch = Epoch(spaced_number(r)?);
    past_text(r, b")\n")?;
    Some(Counts { stats, epoch })
}
