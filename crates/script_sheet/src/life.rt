// The sheet's lines of the lifecycle, in document 01's order.
ghost use Rattle.alike.specs.Canon.{shown_life};
ghost use Rattle.script_sheet.specs.Sheets.{life_lines};
ghost use Rattle.text_put.specs.Writers.{Puts, Room};

use crate::mask::shown_superseded;
use head_life::HeadLifecycle;
use sheet_generations::put_generations;
use sheet_lines::put_count_to_superseded;
use text_put::TextWriter;

// Puts what the sheet shows of a lifecycle: all as it is stored but for the superseded anchor. Attempt epochs and the head's seq are not written.
#[tactic(auto, using(text_put::proofs::Writers::wrote_both, crate::proofs::Shown::life_shown))]
pub(crate) fn put_life(out: &mut TextWriter<'_>, life: HeadLifecycle)
    requires { Room out.old 944 }
    ensures { Puts out.old out.new 944 (life_lines (shown_life life)) }
{
    let superseded = shown_superseded(life.current, life.previous, life.superseded);
    put_count_to_superseded(out, life.stats, life.claim_epoch, life.current, superseded);
    put_generations(out, life.installed, life.previous);
}
