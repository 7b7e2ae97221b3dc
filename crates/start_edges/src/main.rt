// Starts a run for each of its arguments, as headscript does for its one, on the same four lines, and writes a line `%` after each. The files are in data/:
// a sheet as a box wrote it, `/dev/stdin` for a pipe, files that are none; in data/taken what no new driver comes to and yet is taken, in data/refused what breaks
// the form or a rule, a file a case. Then a run with an empty name, one with two names and one with none. The expected output is that of `oracle/model`, which
// was written from document 02 apart from all code here.
// Knows nothing of sheets, nor of answers.
#![tactic(auto)]

use runner::{first_driver, run};
use std::env::Env;
use std::fs::Files;
use std::io::{self, Write};

const LINES: &[u8] = b"(heads)\n(snapshot (7 none) 1)\n(resume 3 2)\n(sheet)\n";

// By how many words the run was started with, its own name among them, and the second of them.
fn play<R: Files + Print>(rt: &R, words: usize, name: &[u8]) {
    let mut out = io::writer(rt);
    let mut lines = LINES;
    run(first_driver(rt, words, name), &mut lines, &mut out);
    let _ = out.write_all(b"%\n");
}

fn main(rt: HostRuntime) {
    let mut name = [0u8; 4096];
    for i in 1..64 {
        let Ok(n) = rt.arg(i, &mut name) else {
            break;
        };
        play(&rt, 2, &name[..n]);
    }
    play(&rt, 2, b"");
    play(&rt, 3, b"new");
    play(&rt, 1, b"");
}
