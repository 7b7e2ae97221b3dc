// A whole input: its lines answered in turn, however it is cut into reads. Knows nothing of where bytes come from and go to.
// The part of a line that is held goes beside its count in the caller's buffer: a type that could not say too many are held would ask more of a host.
#![tactic(auto)]

ghost use Rattle.std.specs.Prelude.{◌+◌, ◌≤◌, ◌≡◌, length};
ghost use Rattle.script.specs.Feeds.{AnswersHeld, Finishes, TakesSome, reading, usable};

use crate::line::print_line;
use head_driver::Driver;
use pending::keep;

mod line;

// A line's answer, written at the front of a buffer, and the driver that the line leaves: a type of its own, as `Reply` says.
#[derive(Clone, Copy)]
pub struct Printed {
    pub driver: Driver,
    pub written: usize,
}

// Where the reading of an input stands, beside the buffers that the caller lends: the driver, how many bytes of a line are held, and how many bytes of the input were taken and of the output written.
#[derive(Clone, Copy)]
pub struct Fed {
    pub driver: Driver,
    pub held: usize,
    pub taken: usize,
    pub written: usize,
}

#[tactic(auto, unfolding(crate::specs::Feeds::usable))]
pub(crate) fn usable(pending: usize, held: usize, out: usize) -> bool
    ensures { result ≡ usable pending held out }
{
    pending >= 513 && held <= 513 && out >= 4096
}

// Answers what is held as a line; nothing of the next line is held.
#[tactic(auto, using(crate::proofs::Placing::answers_held, crate::proofs::Placing::part_room, crate::proofs::Placing::sum_fits))]
pub(crate) fn answer_held(mut fed: Fed, pending: &[u8], out: &mut [u8]) -> Fed
    requires held_in_bounds { fed.held ≤ length pending.now }
    requires written_in_bounds { fed.written + 4096 ≤ length out.old }
    ensures { AnswersHeld fed pending.now out.old out.new result }
{
    let held = fed.held;
    let at = fed.written;
    let printed = print_line(fed.driver, &pending[..held], &mut out[at..]);
    let driver = printed.driver;
    fed.driver = driver;
    fed.held = 0;
    fed.written = at + printed.written;
    fed
}

// Takes the next bytes of an input, as many as there is room for the answers of, and writes these at the front of `out`. The caller
// hands the rest over again, and keeps `pending` and `held` for the next call. Each turn of the loop takes the input up to the end of a line, or to its end.
#[tactic(auto, using(crate::proofs::Feeding::all_taken_lem, crate::proofs::Feeding::answer_room, crate::proofs::Feeding::cut_off, crate::proofs::Feeding::going_first, crate::proofs::Feeding::line_going, crate::proofs::Feeding::line_held, crate::proofs::Feeding::line_less, crate::proofs::Feeding::line_room, crate::proofs::Feeding::no_room, crate::proofs::Feeding::not_usable, crate::proofs::Feeding::written_within))]
pub fn feed(d: Driver, pending: &mut [u8], held: usize, input: &[u8], out: &mut [u8]) -> Fed
    ensures { TakesSome (reading d pending.old held) (reading result.driver pending.new result.held) input.now out.old out.new result }
{
    let mut fed = Fed {
        driver: d,
        held,
        taken: 0,
        written: 0,
    };
    if !usable(pending.len(), held, out.len()) {
        return fed;
    }
    // Not a `for`: a turn takes a line, whatever its length.
    while fed.taken < input.len() {
        if out.len() - fed.written < 4096 {
            return fed;
        }
        let kept = keep(pending, fed.held, input, fed.taken);
        fed.held = kept.held;
        fed.taken = kept.at;
        if !kept.ended {
            return fed;
        }
        fed = answer_held(fed, pending, out);
    }
    fed
}

// The end of the input: what is held is a last line without its line feed.
#[tactic(auto, using(crate::proofs::Ending::last_line, crate::proofs::Ending::lent_room, crate::proofs::Ending::lent_space, crate::proofs::Ending::none_held, crate::proofs::Ending::not_lent))]
pub fn finish(d: Driver, pending: &[u8], held: usize, out: &mut [u8]) -> Printed
    ensures { Finishes (reading d pending.now held) out.old out.new result }
{
    // One test in another, so that each way out knows which of them failed: with `&&` the proof doesn't close.
    if held > 0 {
        if usable(pending.len(), held, out.len()) {
            return print_line(d, &pending[..held], out);
        }
    }
    Printed {
        driver: d,
        written: 0,
    }
}
