// The same calls to two key tables.
use crate::keys::KeySpace;
use crate::random::Xorshift;
use crate::report::{Outcome, Report};
use keytables::key::Key;
use keytables::table::{Full, KeyTable};

// 4,096 keys, twice as many as a table has room for. The step is a Fibonacci number: multiples of it are so close under the hash of the
// buckets that keys with different protocols alone mostly share a bucket.
const SPACE: KeySpace = KeySpace {
    first: 0,
    subsets: 4,
    labels: 4,
    step: 17711,
};

// A call is data and no closure, since two tables are given the same.
#[derive(Clone, Copy)]
enum Call {
    Clear,
    Put(Key, u16),
    Find(Key),
    Start,
}

#[derive(Clone, Copy, PartialEq, Eq)]
enum Answer {
    Done,
    Stored(Result<(), Full>),
    Found(Option<u16>),
}

impl Answer {
    fn outcome(self) -> Outcome {
        match self {
            Answer::Stored(Err(Full)) => Outcome::Refused,
            Answer::Found(Some(_)) => Outcome::Found,
            _ => Outcome::Done,
        }
    }
}

// A sequence of calls, with calls that clear and start among them or not.
#[derive(Clone, Copy)]
pub struct Sequence {
    pub seed: u64,
    pub calls: u32,
    pub resets: bool,
}

// A call that clears or starts, now and then.
fn draw_reset(random: &mut Xorshift) -> Option<Call> {
    match random.below(16_000) {
        0 => Some(Call::Clear),
        1..=99 => Some(Call::Start),
        _ => None,
    }
}

fn draw_call(random: &mut Xorshift, resets: bool) -> Call {
    if resets && let Some(reset) = draw_reset(random) {
        return reset;
    }
    let key = SPACE.draw(random);
    if random.below(2) == 0 {
        Call::Put(key, random.below(u16::MAX))
    } else {
        Call::Find(key)
    }
}

// Makes a call.
fn ask<T: KeyTable>(table: &mut T, call: Call) -> Answer
    requires { T.KeyTable.ready table.old }
    ensures { T.KeyTable.ready table.new }
{
    match call {
        Call::Clear => {
            table.clear();
            Answer::Done
        }
        Call::Put(key, entry) => Answer::Stored(table.put(key, entry)),
        Call::Find(key) => Answer::Found(table.find(key)),
        Call::Start => {
            table.start();
            Answer::Done
        }
    }
}

// Makes every call of a sequence to both tables, and looks at the tallies after each.
// Its loop is that of the one for finders; what is drawn, asked and compared is not.
pub fn compare<A: KeyTable, B: KeyTable>(one: &mut A, other: &mut B, sequence: Sequence) -> Report
    ensures one { A.KeyTable.ready one.new }
{
    let mut random = Xorshift::new(sequence.seed);
    let mut report = Report::default();
    one.clear();
    other.clear();
    for _ in 0..sequence.calls {
        let call = draw_call(&mut random, sequence.resets);
        let answer = ask(one, call);
        let same = answer == ask(other, call) && one.asked() == other.asked();
        report.count(answer.outcome(), same);
    }
    report
}
