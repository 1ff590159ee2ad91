// "One tick, in order".
ghost use Rattle.std.specs.Prelude.{◌≡◌, ◌≤◌};
ghost use Rattle.rules.specs.State.{most};
ghost use Rattle.rules.specs.Tick.{no_output, ticked};
ghost use Rattle.handler.specs.Answered.{answered};
ghost use Rattle.handler.specs.Finished.{finished};

use crate::classes::{classes_after, interrupts_after};
use crate::output::{interrupts_on, lines_on};
use crate::pairs::{acknowledge_pairs, escalation_pairs, ping_pairs};
use answers::signed;
use registers::access::access;
use rules::{
    Answer, Effects, Handler, Input, Interrupts, LinePairs, Output, Refusal, Sample, WORDS, Wires,
};
use samples::hear::hear;
use samples::link::link;
use samples::pace::Met;
use samples::{Sampled, sample};
use state::valid::is_valid;

// What a tick gives: the state, the answer as one signed number, and the outputs.
#[repr(C)]
#[derive(Clone, Copy)]
pub struct Answered {
    pub handler: Handler,
    pub answer: i64,
    pub output: Output,
}

// What steps 2 to 5 give, but for the pairs: a word of a trace needs no more.
#[derive(Clone, Copy)]
pub struct Finished {
    pub handler: Handler,
    pub interrupts: u8,
    pub lines: u8,
}

// Steps 2 to 5, of a valid state g after step 1 and the effects of that.
pub fn finish(g: Handler, effects: Effects, s: Sample) -> Finished
    requires { g.n ≤ most }
    ensures { result ≡ finished g effects s }
{
    let heard = hear(g, s, effects);
    let Sampled {
        handler: mut next,
        assigned,
    } = sample(g, heard);
    let Interrupts { state, enable } = next.interrupts;
    let interrupts = interrupts_after(next.classes, state, assigned);
    let classes = classes_after(next.classes, state, assigned, effects.clears);
    next.classes = classes;
    next.interrupts.state = interrupts;
    let lines = lines_on(classes);
    let met = Met {
        receivers: heard.receivers,
        meets: heard.meets,
        checked: heard.checked,
        right: heard.right,
    };
    next.links = link(g.links, met, lines as u32);
    Finished {
        handler: next,
        interrupts: interrupts_on(interrupts, enable),
        lines,
    }
}

// The outputs on refusal 7: interrupts and lines 0, all pairs (0,1).
pub fn no_output() -> Output
    ensures { result ≡ no_output }
{
    let low = Wires {
        pos: [0; WORDS],
        neg: [0xFFFF_FFFF_FFFF_FFFF; WORDS],
    };
    Output {
        interrupts: 0,
        lines: 0,
        acknowledge: low,
        ping: low,
        escalation: LinePairs { pos: 0, neg: 15 },
    }
}

// One tick of any state. Refusal 7 comes first: state unchanged, tick not run.
pub fn tick(h: Handler, x: Input) -> Answered
    ensures { result ≡ answered (ticked h x) }
{
    if is_valid(h) {
        let accessed = access(h, x.access);
        let t = finish(accessed.handler, accessed.effects, x.sample);
        let handler = t.handler;
        Answered {
            handler,
            answer: signed(accessed.answer),
            output: Output {
                interrupts: t.interrupts as u32,
                lines: t.lines as u32,
                acknowledge: acknowledge_pairs(h.n, h.links.receivers),
                ping: ping_pairs(handler.n, handler.links.receivers),
                escalation: escalation_pairs(handler.links.senders),
            },
        }
    } else {
        Answered {
            handler: h,
            answer: signed(Answer::Refused(Refusal::BadState)),
            output: no_output(),
        }
    }
}
