// replay: makes the calls of the recorded runs in `runs` and counts the answers that are not the recorded ones. The recording is lines, each
// marked by its first byte: `#N` begins a run whose nine counters all stand at N, `>CALL` is a call, and the `<TEXT` lines before it are its answer.
// The hashes of the calls have capitals among their digits, as a line may have them; answers have none.
// The settle numbers that our answers show are left out of the comparison (numbers.rt), since the recorded runs show none.
// Knows nothing of how answers come about, nor of what the Rust is. A line and an answer go beside their counts, as `keep` and `finish` ask for them.
#![tactic(auto)]

ghost use Rattle.std.specs.Prelude.{◌≤◌, ◌≡◌, length};
ghost use Rattle.head_count.specs.Counters.{stats_of};
ghost use Rattle.replay.specs.Recordings.{Collects, Counts, TakesAnswer, TakesRecord, after_answer, after_call, at_run, begun, call_compared, compared, fresh, mark_of, number_of, run_begun, same_front, started};

use crate::numbers::strike;
use head_count::head_lifecycle::raised;
use head_count::{Epoch, HeadStats, Seq};
use head_driver::Driver;
use head_life::HeadLifecycle;
use pending::keep;
use script::finish;
use std::fs::File;
use std::io::{self, Read};
use text_decimal::number_from;
use text_put::put::put;
use text_same::same;

mod numbers;

// What was counted.
#[derive(Clone, Copy)]
struct Tally {
    runs: u64,
    answers: u64,
    differences: u64,
}

// Where a replay stands: what was counted, how many bytes of the next call's answer were collected, and how many bytes of a line are held. The bytes
// themselves are in arrays of `counted`, lent on beside these counts.
#[derive(Clone, Copy)]
struct Standing {
    tally: Tally,
    wanted: usize,
    held: usize,
}

// The same with the run's driver.
#[derive(Clone, Copy)]
struct Replay {
    driver: Driver,
    standing: Standing,
}

#[tactic(auto, unfolding(crate::specs::Recordings::begun))]
fn begun(t: Tally) -> Tally
    ensures { result ≡ begun t }
{
    Tally {
        runs: raised(t.runs),
        ..t
    }
}

#[tactic(auto, unfolding(crate::specs::Recordings::compared))]
fn compared(t: Tally, equal: bool) -> Tally
    ensures { result ≡ compared t equal }
{
    let answers = raised(t.answers);
    if equal {
        return Tally { answers, ..t };
    }
    Tally {
        answers,
        differences: raised(t.differences),
        ..t
    }
}

// Whether the first bytes of two buffers are the same text.
#[tactic(auto, unfolding(crate::specs::Recordings::same_front))]
fn same_front(a: &[u8], m: usize, b: &[u8], n: usize) -> bool
    ensures { result ≡ same_front a.now m b.now n }
{
    match (a.get(..m), b.get(..n)) {
        (Some(a), Some(b)) => same(a, b),
        _ => false,
    }
}

fn all_at(n: u64) -> HeadStats
    ensures { result ≡ stats_of n n n n n n n n }
{
    HeadStats {
        delivered: n,
        repeated: n,
        superseded: n,
        settled: n,
        already_current: n,
        discarded: n,
        ready_views: n,
        cold_views: n,
    }
}

// A new driver but for its nine counters, which all stand at `n`; seq is delivered.
#[tactic(auto, unfolding(crate::specs::Recordings::started, head_driver::specs::New::new, head_life::specs::State::no_head))]
fn started(n: u64) -> Driver
    ensures { result ≡ started n }
{
    let new = Driver::new();
    Driver {
        life: HeadLifecycle {
            seq: Seq(n),
            claim_epoch: Epoch(n),
            stats: all_at(n),
            ..new.life
        },
        ..new
    }
}

// A line of the recorded answer, with its line feed, behind those before it. One that finds no room is left out.
#[tactic(auto, using(crate::proofs::Replaying::no_room, crate::proofs::Replaying::with_room))]
fn collected(wanted: usize, line: &[u8], want: &mut [u8]) -> usize
    ensures { Collects wanted line.now want.old want.new result }
{
    if wanted >= want.len() || line.len() >= want.len() - wanted {
        return wanted;
    }
    let at = put(want, wanted, line);
    put(want, at, b"\n")
}

// The mark of a line; 0 where there is none, since a recording has no such mark.
#[tactic(auto, using(crate::proofs::Replaying::mark_empty, crate::proofs::Replaying::mark_first, crate::proofs::Replaying::mark_none))]
fn mark(line: &[u8], held: usize) -> u8
    ensures { result ≡ mark_of line.now held }
{
    if held == 0 {
        return 0;
    }
    if line.len() == 0 {
        return 0;
    }
    line[0]
}

// The line is collected if it is one of an answer.
#[tactic(auto, using(crate::proofs::Replaying::is_answer, crate::proofs::Replaying::none_held, crate::proofs::Replaying::not_answer, crate::proofs::Replaying::not_there))]
fn answer_taken(mark: u8, wanted: usize, line: &[u8], held: usize, want: &mut [u8]) -> usize
    ensures { TakesAnswer mark wanted line.now held want.old want.new result }
{
    if mark != b'<' {
        return wanted;
    }
    if held == 0 {
        return wanted;
    }
    if held > line.len() {
        return wanted;
    }
    collected(wanted, &line[1..held], want)
}

// The number behind the mark; 0 where there is none.
#[tactic(auto, using(crate::proofs::Replaying::number_read, crate::proofs::Replaying::number_missing), unfolding(crate::specs::Recordings::number_of))]
fn number(line: &[u8], held: usize) -> u64
    ensures { result ≡ number_of line.now held }
{
    if held > line.len() {
        return 0;
    }
    match number_from(&line[..held], Some(1)) {
        Some((number, _)) => number,
        None => 0,
    }
}

// After a call whose answer was compared.
#[tactic(auto, unfolding(crate::specs::Recordings::after_call))]
fn after_call(s: Standing, equal: bool) -> Standing
    ensures { result ≡ after_call s equal }
{
    Standing {
        tally: compared(s.tally, equal),
        wanted: 0,
        held: 0,
    }
}

// The call behind the mark is made, and its answer, without its settle numbers, which `bare` takes, compared with what was collected.
fn call_compared(
    d: Driver,
    s: Standing,
    call: &[u8],
    held: usize,
    want: &[u8],
    out: &mut [u8],
    bare: &mut [u8],
) -> Replay
    requires { length out.old ≤ length bare.old }
    ensures { result ≡ call_compared d s call.now held want.now out.old }
{
    let printed = finish(d, call, held, out);
    let count = strike(&out[..printed.written], bare);
    let equal = same_front(want, s.wanted, bare, count);
    Replay {
        driver: printed.driver,
        standing: after_call(s, equal),
    }
}

// At the begin of a run.
#[tactic(auto, unfolding(crate::specs::Recordings::at_run))]
fn at_run(s: Standing) -> Standing
    ensures { result ≡ at_run s }
{
    Standing {
        tally: begun(s.tally),
        wanted: 0,
        held: 0,
    }
}

#[tactic(auto, unfolding(crate::specs::Recordings::run_begun))]
fn run_begun(s: Standing, n: u64) -> Replay
    ensures { result ≡ run_begun s n }
{
    Replay {
        driver: started(n),
        standing: at_run(s),
    }
}

// After a line of an answer.
#[tactic(auto, unfolding(crate::specs::Recordings::after_answer))]
fn after_answer(s: Standing, wanted: usize) -> Standing
    ensures { result ≡ after_answer s wanted }
{
    Standing {
        wanted,
        held: 0,
        ..s
    }
}

// A line of the recording.
#[tactic(auto, using(crate::proofs::Replaying::marked_held, crate::proofs::Replaying::marked_line, crate::proofs::Replaying::taken_call, crate::proofs::Replaying::taken_other, crate::proofs::Replaying::taken_run))]
fn record_taken(
    d: Driver,
    s: Standing,
    line: &[u8],
    want: &mut [u8],
    out: &mut [u8],
    bare: &mut [u8],
) -> Replay
    requires { length out.old ≤ length bare.old }
    ensures { TakesRecord d s line.now want.old want.new out.old result }
{
    let held = s.held;
    let kind = mark(line, held);
    match kind {
        b'>' => call_compared(d, s, &line[1..], held - 1, want, out, bare),
        b'#' => run_begun(s, number(line, held)),
        _ => {
            let wanted = answer_taken(kind, s.wanted, line, held, want);
            Replay {
                driver: d,
                standing: after_answer(s, wanted),
            }
        }
    }
}

// All that a read brought. Each turn takes the input up to the end of a line, or to its end.
#[tactic(auto, using(crate::proofs::Replaying::counts_none, crate::proofs::Replaying::less_left, crate::proofs::Replaying::record_follows))]
fn lines_taken(
    start: Replay,
    pending: &mut [u8],
    input: &[u8],
    want: &mut [u8],
    out: &mut [u8],
    bare: &mut [u8],
) -> Replay
    requires line_room { 513 ≤ length pending.old }
    requires bare_room { length out.old ≤ length bare.old }
    ensures { Counts start.standing.tally result.standing.tally }
{
    let mut now = start;
    let mut at = 0;
    // Not a `for`: a turn takes a line, whatever its length.
    while at < input.len() {
        let mut s = now.standing;
        let kept = keep(pending, s.held, input, at);
        s.held = kept.held;
        at = kept.at;
        if kept.ended {
            now = record_taken(now.driver, s, pending, want, out, bare);
        } else {
            now.standing = s;
        }
    }
    now
}

// Before the first line.
#[tactic(auto, unfolding(crate::specs::Recordings::fresh))]
fn fresh() -> Replay
    ensures { result ≡ fresh }
{
    let standing = Standing {
        tally: Tally {
            runs: 0,
            answers: 0,
            differences: 0,
        },
        wanted: 0,
        held: 0,
    };
    Replay {
        driver: started(0),
        standing,
    }
}

fn print(rt: &impl Print, t: Tally) -> io::Result<()> {
    println!(rt;
        "{} runs, {} answers, {} differences",
        t.runs, t.answers, t.differences
    )
}

// A proved loop has to end, and nothing says that a file does. So the loop counts its reads, to a number that no run reaches.
#[tactic(auto, using(crate::proofs::Replaying::fresh_fewer))]
fn counted<R: Read>(reader: &mut R) -> Tally
    ensures { result.differences ≤ result.answers }
{
    let mut pending = [0u8; 514];
    let mut want = [0u8; 4096];
    let mut out = [0u8; 4096];
    let mut bare = [0u8; 4096];
    let mut input = [0u8; 65536];
    let mut now = fresh();
    for _ in 0..u64::MAX {
        let n = reader.read(&mut input).unwrap_or(0);
        now = lines_taken(
            now,
            &mut pending,
            &input[..n],
            &mut want,
            &mut out,
            &mut bare,
        );
        if n == 0 {
            break;
        }
    }
    now.standing.tally
}

fn main(rt: HostRuntime) -> io::Result<()> {
    let mut file = File::open(&rt, "runs")?;
    print(&rt, counted(&mut file))
}
