// The lines of an input answered on an output. Whatever a read brought is answered before the next read, so that a person who types sees each answer at once.
// Knows nothing of lines, calls or the state: these are the library's. The part of a line that is held goes beside its count, as `feed` asks for it.
ghost use Rattle.std.specs.Prelude.{◌≡◌, true};
ghost use Rattle.script.specs.Feeds.{reading};
ghost use Rattle.runner.specs.Reads.{AnswersAll, AnswersInput, AnswersLast, AnswersSome};

use head_driver::Driver;
use script::{Fed, feed, finish};
use std::io::{Read, Write};

// Answers as much of the input as there is room for, and writes the answers. Where they cannot be written, nothing counts as taken.
// Kept out of its caller, as `answer_last` is: inlined there, its 64 KiB of answers stay on the stack while the last line's are made.
#[inline(never)]
fn answer_some<W: Write>(
    out: &mut W,
    d: Driver,
    pending: &mut [u8],
    held: usize,
    input: &[u8],
) -> Fed
    ensures { AnswersSome (reading d pending.old held) (reading result.driver pending.new result.held) input.now result.taken
        (W.contents out.old) (W.contents out.new) }
{
    let mut answers = [0u8; 65536];
    let mut fed = feed(d, pending, held, input, &mut answers);
    let n = fed.written;
    if out.write_all(&answers[..n]).is_err() {
        fed.taken = 0;
    }
    fed
}

// Answers all of the input. Where the answers cannot be written, nothing counts as taken.
fn answer_all<W: Write>(
    out: &mut W,
    d: Driver,
    pending: &mut [u8],
    held: usize,
    input: &[u8],
) -> Fed
    ensures { AnswersAll (reading d pending.old held) (reading result.driver pending.new result.held) input.now result.taken
        (W.contents out.old) (W.contents out.new) }
{
    let mut fed = Fed {
        driver: d,
        held,
        taken: 0,
        written: 0,
    };
    let mut at = 0;
    // Not a `for`: a turn takes as much as its answers had room for.
    while at < input.len() {
        let next = answer_some(out, fed.driver, pending, fed.held, &input[at..]);
        if next.taken == 0 {
            return next;
        }
        at += next.taken;
        fed = next;
    }
    fed.taken = at;
    fed
}

// The end of the input: a last line without its line feed. Whether its answer was written.
// Kept out of its caller: inlined there, its answers lie beside those of the lines before.
#[inline(never)]
fn answer_last<W: Write>(out: &mut W, d: Driver, pending: &[u8], held: usize) -> bool
    ensures { result ≡ true → AnswersLast (reading d pending.now held) (W.contents out.old) (W.contents out.new) }
{
    let mut answers = [0u8; 65536];
    let printed = finish(d, pending, held, &mut answers);
    let n = printed.written;
    out.write_all(&answers[..n]).is_ok()
}

// All of an input; whether all of it was read and every answer written. A read that fails is taken for the input's end.
// A proved loop has to end, and nothing says that an input does: so the loop counts its reads, to a number that no run reaches.
pub(crate) fn answer_input<R: Read, W: Write>(input: &mut R, out: &mut W, driver: Driver) -> bool
    ensures { result ≡ true → AnswersInput driver (R.remaining input.old) (W.contents out.old) (W.contents out.new) }
{
    let mut pending = [0u8; 513];
    let mut bytes = [0u8; 65536];
    let mut now = Fed {
        driver,
        held: 0,
        taken: 0,
        written: 0,
    };
    for _ in 0..u64::MAX {
        let Ok(n) = input.read(&mut bytes) else {
            answer_last(out, now.driver, &pending, now.held);
            return false;
        };
        if n == 0 {
            return answer_last(out, now.driver, &pending, now.held);
        }
        now = answer_all(out, now.driver, &mut pending, now.held, &bytes[..n]);
        if now.taken == 0 {
            return false;
        }
    }
    false
}
