// Plays scripts parted by `%` from its standard input, each from a new driver and byte by byte, so that every line comes in parts, and writes a line `%`
// after each. Then `(sheet)` into buffers of 4,095 and of 4,096 bytes. The expected output is written from document 01 and from document 02's jobs.
// Knows nothing of how answers come about. The part of a line that is held goes beside its count, as `feed` asks for it.
#![tactic(auto)]

ghost use Rattle.std.specs.Prelude.{◌≤◌, ◌≡◌, length};
ghost use Rattle.script.specs.Feeds.{reading};
ghost use Rattle.script_edges.specs.Plays.{AsksSheet, Plays, TakesByte, afresh, sheet_left};

use driver::{LineAnswer, put_line, take_line};
use head_driver::Driver;
use script::{Fed, feed, finish};
use std::io::{self, Read, Write};

fn afresh() -> Fed
    ensures { result ≡ afresh }
{
    Fed {
        driver: Driver::new(),
        held: 0,
        taken: 0,
        written: 0,
    }
}

// The first n bytes of a buffer; nothing where it has fewer.
fn show(rt: &impl Print, buf: &[u8], n: usize) {
    if let Some(front) = buf.get(..n) {
        let _ = io::writer(rt).write_all(front);
    }
}

// The answers of one byte: none, or those of the line that it ends.
#[tactic(auto, using(crate::proofs::Played::takes_byte))]
fn play_byte(rt: &impl Print, d: Driver, pending: &mut [u8], held: usize, byte: u8) -> Fed
    ensures { TakesByte (reading d pending.old held) (reading result.driver pending.new result.held) byte result.taken }
{
    let mut out = [0u8; 4096];
    let fed = feed(d, pending, held, &[byte], &mut out);
    show(rt, &out, fed.written);
    fed
}

// The end of a script: the answer to a last line without its line feed, if there is one, and the mark.
fn end_script(rt: &impl Print, d: Driver, pending: &[u8], held: usize) {
    let mut out = [0u8; 4096];
    let printed = finish(d, pending, held, &mut out);
    show(rt, &out, printed.written);
    let _ = io::writer(rt).write_all(b"%\n");
}

// The next byte: a mark, after which the next script begins, or a byte of the script.
#[tactic(auto, using(crate::proofs::Played::marked, crate::proofs::Played::unmarked))]
fn next(rt: &impl Print, fed: Fed, pending: &mut [u8], byte: u8) -> Fed
    ensures { Plays (reading fed.driver pending.old fed.held) (reading result.driver pending.new result.held) byte result }
{
    if byte == b'%' {
        end_script(rt, fed.driver, pending, fed.held);
        return afresh();
    }
    play_byte(rt, fed.driver, pending, fed.held, byte)
}

fn play(rt: &impl Print, input: &[u8]) {
    let mut pending = [0u8; 513];
    let mut fed = afresh();
    for byte in input {
        fed = next(rt, fed, &mut pending, *byte);
    }
}

fn show_line(rt: &impl Print, answer: LineAnswer) {
    let mut out = [0u8; 4096];
    if let Some(n) = put_line(&mut out, answer) {
        show(rt, &out, n);
    }
}

// What a new driver answers to `(sheet)` with a lent buffer.
#[tactic(auto, using(driver::proofs::Turned::line_exact))]
fn sheet_asked(buf: &mut [u8]) -> LineAnswer
    ensures { AsksSheet buf.old buf.new result }
{
    take_line(Driver::new(), b"(sheet)", buf).answer
}

// `(sheet)` of a new driver into a lent buffer: the sheet that stands there, or the refusal's line.
fn show_sheet(rt: &impl Print, buf: &mut [u8])
    ensures { buf.new ≡ sheet_left buf.old }
{
    let answer = sheet_asked(buf);
    if let LineAnswer::Sheet(n) = answer {
        show(rt, buf, n);
    } else {
        show_line(rt, answer);
    }
}

// Reads until the buffer is full or a read brings nothing.
fn read_full<R: Read>(reader: &mut R, buf: &mut [u8]) -> usize
    ensures { result ≤ length buf.new }
{
    let mut done = 0;
    // Not a `for`: a turn takes what a read brought.
    while done < buf.len() {
        let n = reader.read(&mut buf[done..]).unwrap_or(0);
        if n == 0 {
            return done;
        }
        done += n;
    }
    done
}

fn main(rt: HostRuntime) {
    let mut input = [0u8; 65536];
    let n = read_full(&mut rt.reader(), &mut input);
    play(&rt, &input[..n]);
    let mut short = [0u8; 4095];
    show_sheet(&rt, &mut short);
    let mut enough = [0u8; 4096];
    show_sheet(&rt, &mut enough);
}
