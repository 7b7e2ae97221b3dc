// Plays document 01's edges E1 to E10 and E12 on typed calls and prints each answer as document 01 writes it. Knows nothing of call lines.
#![tactic(auto)]

ghost use Rattle.std.specs.Prelude.{◌≡◌};
ghost use Rattle.head_driver.specs.Answers.{said};
ghost use Rattle.head_step.specs.Steps.{step};

use driver::{LineAnswer, put_line};
use hash::Hash;
use head_call::Call;
use head_count::{Epoch, Seq};
use head_current::{HeadTicket, PrepareClaim};
use head_driver::{Answer, Driver};
use head_step::head_lifecycle::step;
use head_values::{BalSkip, PreparedBal, ReadAnchor};
use std::io::{self, Write};

// Prints an answer's line and gives its number.
fn show(rt: &impl Print, answer: Answer) -> u64
    ensures { result ≡ (said answer).number }
{
    let mut line = [0u8; 512];
    let n = put_line(&mut line, LineAnswer::Said(answer)).unwrap_or(0);
    if let Some(front) = line.get(..n) {
        let _ = io::writer(rt).write_all(front);
    }
    answer.number()
}

// Makes a call, prints its answer and gives the driver back.
fn play(rt: &impl Print, d: Driver, call: Call) -> Driver
    ensures { result ≡ (step d call).driver }
{
    let turn = step(d, call);
    show(rt, turn.answer);
    turn.driver
}

fn hash_of(n: u64) -> Hash
    ensures { result ≡ record { w0 = 0; w1 = 0; w2 = 0; w3 = n } }
{
    Hash {
        w0: 0,
        w1: 0,
        w2: 0,
        w3: n,
    }
}

// An anchor without hash.
fn bare(number: u64) -> ReadAnchor
    ensures { result ≡ record { number = number; hash = None } }
{
    ReadAnchor { number, hash: None }
}

// An anchor with the hash of its number.
fn known(number: u64) -> ReadAnchor
    ensures { result ≡ record { number = number; hash = Some (record { w0 = 0; w1 = 0; w2 = 0; w3 = number }) } }
{
    ReadAnchor {
        number,
        hash: Some(hash_of(number)),
    }
}

// The three below each make a value of its own, which written out takes four lines at each call.
fn ticket(anchor: ReadAnchor, seq: Seq) -> HeadTicket
    ensures { result ≡ record { anchor = anchor; seq = seq } }
{
    HeadTicket { anchor, seq }
}

fn owner(seq: Seq, epoch: Epoch) -> PrepareClaim
    ensures { result ≡ record { seq = seq; epoch = epoch } }
{
    PrepareClaim { seq, epoch }
}

fn list(anchor: ReadAnchor, skip: BalSkip) -> PreparedBal
    ensures { result ≡ record { anchor = anchor; skip = skip } }
{
    PreparedBal { anchor, skip }
}

// E1 to E4: the link test.
fn links(rt: &impl Print, d: Driver) -> Driver
    ensures { result ≡ d }
{
    let last = ReadAnchor {
        number: 0xffff_ffff_ffff_ffff,
        hash: Some(hash_of(0)),
    };
    play(rt, d, Call::Link(Some(last), bare(0), hash_of(0)));
    play(rt, d, Call::Link(Some(bare(9)), bare(10), hash_of(0)));
    play(rt, d, Call::Link(Some(known(9)), bare(10), hash_of(8)));
    play(rt, d, Call::Link(Some(known(9)), bare(10), hash_of(9)));
    d
}

fn main(rt: HostRuntime) {
    let mut d = links(&rt, Driver::new());
    // E5, E6: a new driver, claim and apply.
    d = play(&rt, d, Call::Claim(ticket(bare(7), Seq(1))));
    d = play(&rt, d, Call::Stats);
    d = play(
        &rt,
        d,
        Call::Apply(
            ticket(bare(7), Seq(1)),
            list(bare(7), BalSkip::NoHash),
            60,
            0,
            90,
        ),
    );
    d = play(&rt, d, Call::Stats);
    // E7: the same anchor under another parent hash.
    d = play(&rt, Driver::new(), Call::Deliver(bare(7), hash_of(0), 50));
    d = play(&rt, d, Call::Deliver(bare(7), hash_of(1), 51));
    d = play(&rt, d, Call::Stats);
    // E8: under the same.
    d = play(&rt, Driver::new(), Call::Deliver(bare(7), hash_of(0), 50));
    d = play(&rt, d, Call::Deliver(bare(7), hash_of(0), 51));
    d = play(&rt, d, Call::Stats);
    // E9: release with epoch 2 against 1; the head is preparing still.
    d = play(&rt, d, Call::Claim(ticket(bare(7), Seq(1))));
    d = play(&rt, d, Call::Release(owner(Seq(1), Epoch(2))));
    d = play(&rt, d, Call::Claim(ticket(bare(7), Seq(1))));
    // E10: waiter 15 is accepted, 16 refused 3.
    d = play(&rt, Driver::new(), Call::Wait(15, bare(7), 51));
    d = play(&rt, d, Call::Wait(16, bare(7), 51));
    // E12: abandoned, then a carried retry, then resume.
    d = play(&rt, Driver::new(), Call::Deliver(known(1), hash_of(0), 50));
    d = play(
        &rt,
        d,
        Call::Apply(
            ticket(known(1), Seq(1)),
            list(known(1), BalSkip::Nothing),
            60,
            0,
            90,
        ),
    );
    d = play(&rt, d, Call::Deliver(known(2), hash_of(1), 51));
    d = play(&rt, d, Call::Claim(ticket(known(2), Seq(2))));
    d = play(&rt, d, Call::Wait(0, known(2), 52));
    d = play(&rt, d, Call::Release(owner(Seq(2), Epoch(1))));
    d = play(&rt, d, Call::Claim(ticket(known(2), Seq(2))));
    d = play(
        &rt,
        d,
        Call::Apply(
            ticket(known(2), Seq(2)),
            list(known(2), BalSkip::Nothing),
            61,
            5,
            91,
        ),
    );
    d = play(&rt, d, Call::Resume(0, 53));
    play(&rt, d, Call::Stats);
}
