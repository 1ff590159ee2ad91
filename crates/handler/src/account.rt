// What a tick hears, told to who asks: events and answers of the alerts, and the local alerts that occur. The tick itself is `tick`.
ghost use Rattle.std.specs.Prelude.{◌≡◌};
ghost use Rattle.handler.specs.Account.{account};

use answers::signed;
use registers::access::access;
use rules::{Answer, Handler, Input, Refusal, WORDS};
use samples::hear::hear;
use samples::locals::occurring;
use state::valid::is_valid;

// The alerts with an event, enabled or not, and those whose open ping is answered, alert i at bit 63 - i % 64 of word i / 64; the local
// alerts that occur, local 0 at the lowest bit; and the tick's answer.
#[repr(C)]
#[derive(Clone, Copy)]
pub struct Account {
    pub events: [u64; WORDS],
    pub answers: [u64; WORDS],
    pub locals: u64,
    pub answer: i64,
}

// Of the tick of any state. Refusal 7 comes first: nothing is heard.
pub fn account_of(h: Handler, x: Input) -> Account
    ensures { result ≡ account h x }
{
    if is_valid(h) {
        let accessed = access(h, x.access);
        let heard = hear(accessed.handler, x.sample, accessed.effects);
        // an array of one struct goes into another by a variable: the checker covers no other way yet
        let events = heard.events;
        let answers = heard.answers;
        Account {
            events,
            answers,
            locals: occurring(heard.raises, accessed.handler.locals.en) as u64,
            answer: signed(accessed.answer),
        }
    } else {
        Account {
            events: [0; WORDS],
            answers: [0; WORDS],
            locals: 0,
            answer: signed(Answer::Refused(Refusal::BadState)),
        }
    }
}
