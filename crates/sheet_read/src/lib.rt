// A sheet read back: from its bytes to the driver that it shows, or that they are no sheet. Seq and the head's own number are not written, so they are
// delivered; nor are attempt epochs, so a preparing head's is the count line's, and any other's is 0.
// A reader that hands back `None` has found the bytes to be no sheet, so where it stands then is left open.
// Knows nothing of the rules that a driver keeps, nor of calls.
#![tactic(auto)]

ghost use Rattle.std.specs.Prelude.{◌≡◌};
ghost use Rattle.sheet_read.specs.Reads.{read_sheet};

use crate::counts::take_count;
use crate::generation::{take_installed, take_previous};
use crate::head::{take_current, take_superseded};
use crate::waiter::take_waiters;
use head_count::Seq;
use head_driver::Driver;
use head_life::HeadLifecycle;
use line_reader::LineReader;

pub mod counts;
pub mod generation;
pub mod head;
pub mod outcome;
pub mod waiter;

// The driver that a sheet shows.
#[tactic(auto, using(crate::proofs::Stopped::current_stopped, crate::proofs::Stopped::superseded_stopped, crate::proofs::Stopped::installed_stopped, crate::proofs::Stopped::previous_stopped, crate::proofs::Stopped::waiters_stopped, crate::proofs::Stopped::end_stopped), unfolding(crate::specs::Reads::read_sheet, crate::specs::Reads::whole))]
pub fn read_sheet(bytes: &[u8]) -> Option<Driver>
    ensures { result ≡ read_sheet bytes.now }
{
    let mut r = LineReader::new(bytes, 0);
    let counts = take_count(&mut r)?;
    let delivered = counts.stats.delivered;
    let current = take_current(&mut r, delivered, counts.epoch)?;
    let superseded = take_superseded(&mut r)?;
    let installed = take_installed(&mut r)?;
    let previous = take_previous(&mut r)?;
    let waiters = take_waiters(&mut r)?;
    if !r.at_end() {
        return None;
    }
    let life = HeadLifecycle {
        current,
        superseded,
        installed,
        previous,
        seq: Seq(delivered),
        claim_epoch: counts.epoch,
        stats: counts.stats,
    };
    Some(Driver { life, waiters })
}
