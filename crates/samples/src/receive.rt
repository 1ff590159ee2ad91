// Step 2, the receivers meet their pings and wire pairs, 64 alerts at a time. Nothing here knows of EN or CLASS.
ghost use Rattle.std.specs.Prelude.{◌<◌};
ghost use Rattle.rules.specs.State.{words};
ghost use Rattle.samples.specs.Received.{ReceivedWord, ToldWord, ReceivedAll};

use masks::places::live;
use rules::{Receivers, WORDS, Wires};
use std::array::from_fn;

// 64 receivers, a bit of each in every word: where they stand, the level of the ping pair, the open pings.
#[derive(Clone, Copy)]
pub struct Word {
    pub pausing: u64,
    pub busy: u64,
    pub level: u64,
    pub pending: u64,
}

// What 64 alerts tell: the receivers after it, who had an event, whose open ping was answered, whose wires are equal.
#[derive(Clone, Copy)]
pub struct Told {
    pub word: Word,
    pub events: u64,
    pub answers: u64,
    pub equal: u64,
}

// The live receivers of one word meet what is asked for and their wire pairs (p, q).
fn meet(w: Word, asks: u64, p: u64, q: u64, live: u64) -> Told
    ensures { ReceivedWord w asks p q live result }
{
    let fresh = asks & !w.pending & live;
    let pending = w.pending | fresh;
    let taken = p & !q & !w.pausing & !w.busy & live;
    let sound = (p ^ q) & live;
    Told {
        word: Word {
            pausing: w.pausing & !sound | sound & w.busy & (w.pausing | q),
            busy: w.busy & !sound | sound & !w.pausing & (p | w.busy),
            level: w.level ^ fresh,
            pending: pending & !taken,
        },
        events: taken & !pending,
        answers: taken & pending,
        equal: !(p ^ q) & live,
    }
}

// The same; a word in which nothing moves costs a test.
fn receive(w: Word, asks: u64, p: u64, q: u64, live: u64) -> Told
    ensures { ReceivedWord w asks p q live result }
{
    if (p | !q | w.pausing | w.busy | asks) & live == 0 {
        Told {
            word: w,
            events: 0,
            answers: 0,
            equal: 0,
        }
    } else {
        meet(w, asks, p, q, live)
    }
}

// The same of all alerts.
#[derive(Clone, Copy)]
pub struct Received {
    pub receivers: Receivers,
    pub events: [u64; WORDS],
    pub answers: [u64; WORDS],
    pub equal: [u64; WORDS],
}

// Word v of the receivers of n alerts meets word v of what is asked for and of the wires w.
fn receive_word(n: usize, r: Receivers, asks: [u64; WORDS], w: Wires, v: usize) -> Told
    requires { v < words }
    ensures { ToldWord n r asks w v result }
{
    let word = Word {
        pausing: r.pausing[v],
        busy: r.busy[v],
        level: r.level[v],
        pending: r.pending[v],
    };
    receive(word, asks[v], w.pos[v], w.neg[v], live(n, v * 64))
}

// The n alerts meet what is asked for and the wires w, word by word.
#[tactic(auto, unfolding(bits::specs::Index::each_from))]
pub fn receive_all(n: usize, r: Receivers, asks: [u64; WORDS], w: Wires) -> Received
    ensures { ReceivedAll n r asks w result }
{
    let told: [Told; WORDS] = from_fn(|v| receive_word(n, r, asks, w, v));
    Received {
        receivers: Receivers {
            pausing: told.map(|t| t.word.pausing),
            busy: told.map(|t| t.word.busy),
            level: told.map(|t| t.word.level),
            pending: told.map(|t| t.word.pending),
        },
        events: told.map(|t| t.events),
        answers: told.map(|t| t.answers),
        equal: told.map(|t| t.equal),
    }
}
