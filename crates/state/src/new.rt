// "What the stations need": a new handler.
ghost use Rattle.std.specs.Prelude.{◌≡◌};
ghost use Rattle.rules.specs.State.{reset_class, new_handler, made};

use crate::stages::none;
use answers::signed;
use class_rules::Class;
use link_rules::{Senders, Turn};
use rules::{
    Alerts, Answer, Handler, Interrupts, Links, Locals, MOST, Made, Receivers, Refusal, Timer,
    WORDS,
};

// A class at reset.
fn reset_class() -> Class
    ensures { result ≡ reset_class }
{
    Class {
        lengths: [0; 4],
        timeout: 0,
        count: 0,
        ctrl: 0x393C,
        accum: 0,
        thresh: 0,
        regwen: 1,
        clrwen: 1,
        state: 0,
    }
}

// All REGWEN and CLR_REGWEN start at 1, all CTRL at 0x393C, every other register at 0, classes Idle, receivers ready, senders at rest.
fn reset(n: usize) -> Handler
    ensures { result ≡ new_handler n }
{
    Handler {
        n,
        links: Links {
            receivers: Receivers {
                pausing: [0; WORDS],
                busy: [0; WORDS],
                level: [0; WORDS],
                pending: [0; WORDS],
            },
            turn: Turn {
                number: 0,
                alert: 0,
                count: 0,
            },
            lines: 0,
            senders: Senders {
                on: 0,
                first: 0,
                last: 0,
                deep: 0,
                answer: 0,
            },
            right: 0,
        },
        classes: [reset_class(); 4],
        alerts: Alerts {
            regwen: [1; MOST],
            en: [0; MOST],
            class: [0; MOST],
            cause: [0; MOST],
        },
        locals: Locals {
            regwen: [1; 7],
            en: [0; 7],
            class: [0; 7],
            cause: [0; 7],
        },
        interrupts: Interrupts {
            state: 0,
            enable: 0,
        },
        timer: Timer {
            timeout: 0,
            regwen: 1,
            enable: 0,
        },
        stages: none(),
    }
}

// A handler for n alerts; refusal 6 leaves a handler of no alerts, otherwise as new.
pub fn new(n: usize) -> Made
    ensures { result ≡ made n }
{
    if (n == 0) | (MOST < n) {
        Made {
            handler: reset(0),
            answer: signed(Answer::Refused(Refusal::BadCount)),
        }
    } else {
        Made {
            handler: reset(n),
            answer: signed(Answer::Done),
        }
    }
}
