// Calm ticks under way: plain ticks, one by one, for the few that settle a state and for the last, and the engine for those between.
ghost use Rattle.std.specs.Prelude.{◌≡◌, true, false, ◌+◌, ◌<◌, ◌≤◌, ◌^◌, [], length};
ghost use Rattle.calm_laws.specs.Four.{changes_in, FourFit};
ghost use Rattle.bits.specs.Bits.{bits_of};
ghost use Rattle.calm_laws.specs.Settled.{calm_class_event, settle_ticks};
ghost use Rattle.calm_rules.specs.Ticks.{calm_input, given_output};
ghost use Rattle.rules.specs.State.{is_on};
ghost use Rattle.rules.specs.Tick.{lines};
ghost use Rattle.rules.specs.Valid.{valid};

use crate::changes::Changes;
use crate::engine::advance;
use crate::four::{Met, events_of};
use crate::round::Moved;
use crate::sending::sound_receive;
use handler::output::{interrupts_on, lines_on};
use handler::tick::{no_output, tick};
use rules::{Access, Effects, Handler, Input, Output, Sample, Wires};
use samples::hear::hear;
use samples::sample;

// As many plain ticks settle any state.
pub const SETTLE: u64 = 3;

// A state that calm ticks run from, with its wires, its lines and the changes so far: it is valid, its ping timer is off, and there is room for the
// changes that can still come.
#[derive(Drop)]
pub struct Ticking<const MOST: usize> {
    pub handler: Handler,
    pub wires: Wires,
    pub on: u32,
    pub changes: Changes<MOST>,
    ghost good: { valid handler ≡ true },
    ghost off: { is_on handler ≡ false },
    ghost lit: { on ≡ lines handler },
    ghost room: { length changes + changes_in handler.classes ≤ MOST },
}

impl<const MOST: usize> Ticking<MOST> {
    ghost use Rattle.calm.specs.Walk.{NextBy, Walk, RestBy};

    // Before the first tick.
    pub fn new(h: Handler, wires: Wires) -> Self
        requires { (valid h ≡ true) × (is_on h ≡ false) × (changes_in h.classes ≤ MOST) }
        ensures { (result.handler ≡ h) × (result.wires ≡ wires) × (result.changes ≡ []) }
    {
        Ticking {
            handler: h,
            wires,
            on: u32::from(lines_on(h.classes)),
            changes: Changes::new(),
        }
    }

    // What comes in in a calm tick of this state.
    fn input(&self) -> Input
        ensures { result ≡ calm_input self.now.wires self.now.handler }
    {
        Input {
            access: Access::Nothing,
            sample: Sample {
                alerts: self.wires,
                word: 0,
                receive: sound_receive(self.handler.links.senders),
            },
        }
    }

    // One tick more, of this number.
    pub fn step(&mut self, number: u64) -> Output
        requires { number < 2 ^ 32 }
        ensures { NextBy self.old number self.new result }
    {
        let t = tick(self.handler, self.input());
        self.changes.note(self.on, t.output.lines, number);
        self.on = t.output.lines;
        self.handler = t.handler;
        t.output
    }

    // n ticks, one by one.
    pub fn walk(&mut self, n: u64) -> Output
        requires { n < 2 ^ 32 }
        ensures { Walk self.old n self.new result }
    {
        let mut output = given_output(&self.handler);
        for i in 0..n {
            output = self.step(i + 1);
        }
        output
    }

    // The classes that have an event in each tick of a settled state.
    fn events(&self) -> u8
        ensures { result ≡ bits_of 4 (calm_class_event self.now.handler self.now.wires) }
    {
        // Kept: `rules::Effects` has no default to ask for.
        let none = Effects {
            clears: 0,
            raises: 0,
            begins: false,
        };
        let heard = hear(self.handler, self.input().sample, none);
        let sampled = sample(self.handler, heard);
        events_of(&self.handler.classes, sampled.assigned)
    }

    // n ticks by the engine, after those that settle a state: they move the classes and the senders alone, and each class meets the same in every
    // tick.
    pub fn rest(&mut self, n: u64)
        requires { FourFit self.old.handler.classes × (settle_ticks + n < 2 ^ 32) }
        ensures { RestBy self.old n self.new }
    {
        let signals = Met {
            events: self.events(),
            interrupts: self.handler.interrupts.state,
        };
        let classes = self.handler.classes;
        let start = Moved {
            classes,
            senders: self.handler.links.senders,
        };
        let moved = advance(start, signals, SETTLE, n, &mut self.changes);
        let classes = moved.classes;
        self.handler.classes = classes;
        self.handler.links.senders = moved.senders;
        self.on = u32::from(lines_on(classes));
    }

    // n ticks: a few plain ones that settle the state, the rest but one by the engine, and the last, whose outputs are asked for, a plain one too.
    pub(crate) fn run(&mut self, n: u64) -> Output
        requires { n < 2 ^ 32 }
        ensures { Walk self.old n self.new result }
    {
        if n <= SETTLE {
            return self.walk(n);
        }
        self.walk(SETTLE);
        self.rest(n - SETTLE - 1);
        self.step(n)
    }
}

// Step 5 of this state, with all pairs at (0,1).
fn given_output(h: &Handler) -> Output
    ensures { result ≡ given_output h.now }
{
    Output {
        interrupts: u32::from(interrupts_on(h.interrupts.state, h.interrupts.enable)),
        lines: u32::from(lines_on(h.classes)),
        ..no_output()
    }
}
