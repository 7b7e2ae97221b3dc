// Put a box back from its sheet: the driver that a sheet shows, in place of the one at hand.
// Knows nothing of files, nor of how a sheet is read and what its rules are.
#![tactic(auto)]

ghost use Rattle.rebuild.specs.Rebuilds.{Rebuilds};

use driver::{LineAnswer, Turn};
use head_driver::{Answer, Driver};
use sheet_read::read_sheet;
use sheet_rules::meets_rules;

// Any bytes, of any length; where they are not taken the driver at hand comes back as it is.
#[tactic(auto, using(crate::proofs::Rebuilt::taken, crate::proofs::Rebuilt::no_sheet))]
pub fn rebuild(d: Driver, sheet: &[u8]) -> Turn
    ensures { Rebuilds d sheet.now result }
{
    let Some(shown) = read_sheet(sheet) else {
        return Turn {
            driver: d,
            answer: LineAnswer::SheetNotTaken,
        };
    };
    if !meets_rules(shown) {
        return Turn {
            driver: d,
            answer: LineAnswer::SheetNotTaken,
        };
    }
    Turn {
        driver: shown,
        answer: LineAnswer::Said(Answer::Done),
    }
}
