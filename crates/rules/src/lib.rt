// The types of the handler. Its rules, document 01 section by section, are the definitions in specs/.
#![tactic(auto)]

use class_rules::Class;
use link_rules::{Meets, Senders, Turn};

// The most alerts that a handler is made for, and the words of 64 that hold a bit of each.
pub const MOST: usize = 248;

pub const WORDS: usize = 4;

// ---- The state. Integers alone, so that any bytes that come in are a value and refusal 7 judges them. Wide enough that no struct has
// padding, so that equal states are equal bytes and none of a caller's old bytes leave in one; 7 judges each register by its own bits.
// Columns of local alerts and of alerts are two structs, and a field has an array of its own: C has this layout, and an exported function
// takes no struct with a const parameter. ----

#[repr(C)]
#[derive(Clone, Copy)]
pub struct Interrupts {
    // INTR_STATE and INTR_ENABLE: class 0 is the lowest bit
    pub state: u16,
    pub enable: u16,
}

#[repr(C)]
#[derive(Clone, Copy)]
pub struct Locals {
    pub regwen: [u8; 7],
    pub en: [u8; 7],
    pub class: [u8; 7],
    pub cause: [u8; 7],
}

#[repr(C)]
#[derive(Clone, Copy)]
pub struct Alerts {
    pub regwen: [u8; MOST],
    pub en: [u8; MOST],
    pub class: [u8; MOST],
    pub cause: [u8; MOST],
}

// The alerts' receivers, request (viii): alert i has bit 63 - i % 64 of word i / 64 in each. Any bits are a receiver.
#[repr(C)]
#[derive(Clone, Copy)]
pub struct Receivers {
    // where it stands: 0 0 ready, 0 1 acknowledged, 1 1 and 1 0 the first and the second tick of the pause
    pub pausing: [u64; WORDS],
    pub busy: [u64; WORDS],
    // the level of its ping pair, and whether a ping is open
    pub level: [u64; WORDS],
    pub pending: [u64; WORDS],
}

// What stands between the wires and the registers. Steps 3 to 5 do not look at it, and a tick writes it last.
#[repr(C)]
#[derive(Clone, Copy)]
pub struct Links {
    pub receivers: Receivers,
    // request (ix): the ping timer's turn, and the lines whose ping is open, line 0 at the lowest bit; bits from 4 up are never looked at
    pub turn: Turn,
    pub lines: u32,
    // request (xi): the lines' senders, and whether all answers to the open ping of the turn's line were right so far, in the lowest bit
    pub senders: Senders,
    pub right: u32,
}

// The ping timer's registers, request (ix): REGWEN, timeout and enable.
#[repr(C)]
#[derive(Clone, Copy)]
pub struct Timer {
    pub timeout: u32,
    pub regwen: u16,
    pub enable: u16,
}

// Stages, request (v): what the first of two equal writes left at a shadowed register. A stage's code is 0 for none, and the staged
// value plus 1: C has no Option.
#[repr(C)]
#[derive(Clone, Copy)]
pub struct ClassStages {
    pub lengths: [u64; 4],
    pub timeout: u64,
    pub ctrl: u32,
    pub thresh: u32,
}

#[repr(C)]
#[derive(Clone, Copy)]
pub struct AlertStages {
    pub en: [u8; MOST],
    pub class: [u8; MOST],
}

#[repr(C)]
#[derive(Clone, Copy)]
pub struct LocalStages {
    pub en: [u32; 7],
    pub class: [u32; 7],
}

#[repr(C)]
#[derive(Clone, Copy)]
pub struct Stages {
    pub classes: [ClassStages; 4],
    pub alerts: AlertStages,
    pub locals: LocalStages,
    // of the ping timer's timeout
    pub timeout: u64,
}

#[repr(C)]
#[derive(Clone, Copy)]
pub struct Handler {
    pub n: usize,
    pub links: Links,
    pub classes: [Class; 4],
    pub alerts: Alerts,
    pub locals: Locals,
    pub interrupts: Interrupts,
    pub timer: Timer,
    pub stages: Stages,
}

// ---- Registers: a register number decoded into kind and index. ----

// The registers that there is one of.
#[derive(Clone, Copy, PartialEq, Eq)]
pub enum Single {
    IntrState,
    IntrEnable,
    IntrTest,
    PingRegwen,
    PingTimeout,
    PingEnable,
}

// The registers of an alert or a local alert.
#[derive(Clone, Copy, PartialEq, Eq)]
pub enum Field {
    Regwen,
    En,
    Class,
    Cause,
}

// The registers of a class's block.
#[derive(Clone, Copy, PartialEq, Eq)]
pub enum Setting {
    Regwen,
    Ctrl,
    ClrRegwen,
    Clr,
    AccumCnt,
    AccumThresh,
    TimeoutCyc,
    PhaseCyc(usize),
    EscCnt,
    State,
}

#[derive(Clone, Copy, PartialEq, Eq)]
pub enum Register {
    Only(Single),
    Local(Field, usize),
    Alert(Field, usize),
    Block(Setting, usize),
    Unassigned,
}

// What can be done with a register: read and written, the same where a written 1 clears, the same where a written 1 sets and a 0 does
// nothing, only read, only written.
#[derive(Clone, Copy, PartialEq, Eq)]
pub enum Way {
    Both,
    OneClears,
    OneSets,
    ReadOnly,
    WriteOnly,
}

// What locks a register: nothing, the REGWEN or the CLR_REGWEN of its alert or class.
#[derive(Clone, Copy, PartialEq, Eq)]
pub enum Guard {
    Free,
    ByRegwen,
    ByClrRegwen,
}

// What is known of a register, a row of the register map.
#[derive(Clone, Copy)]
pub struct Row {
    pub bits: u8,
    pub way: Way,
    pub guard: Guard,
    // it is a REGWEN or CLR_REGWEN
    pub lock: bool,
    // steps 2 to 4 of a tick change it by themselves
    pub moves: bool,
    // it takes two equal writes
    pub shadowed: bool,
}

// ---- What goes in. ----

#[derive(Clone, Copy)]
pub enum Access {
    Nothing,
    Read(u16),
    Write(u16, u32),
    // what a malformed trace record holds
    Malformed,
}

// The wire pair of alert i is at bit 63 - i % 64 of words i / 64.
#[repr(C)]
#[derive(Clone, Copy)]
pub struct Wires {
    pub pos: [u64; WORDS],
    pub neg: [u64; WORDS],
}

// What comes back from the lines, line 0 at the lowest bit; bits from 4 up count for nothing. Request (xi): the receive pairs' positive and negative wires;
// request (ix): from older records, whose pairs nobody checks, the lines whose ping is answered.
#[derive(Clone, Copy)]
pub enum Receive {
    Pairs(u32, u32),
    Answers(u32),
}

// What comes in on the wires, and the entropy word.
#[derive(Clone, Copy)]
pub struct Sample {
    pub alerts: Wires,
    pub word: u32,
    pub receive: Receive,
}

#[derive(Clone, Copy)]
pub struct Input {
    pub access: Access,
    pub sample: Sample,
}

// ---- What comes out. ----

// Why an access or a call is refused, and the number that comes back for it, negated.
#[derive(Clone, Copy, PartialEq, Eq)]
pub enum Refusal {
    NoRegister = 1,
    WrongWay = 2,
    Locked = 3,
    TooWide = 4,
    BadRecord = 5,
    BadCount = 6,
    BadState = 7,
    BadLength = 8,
    ShortList = 9,
    NoRecord = 10,
    ShortBuffer = 11,
    Differs = 12,
    SillyThreshold = 14,
}

// An answer, before it becomes one signed number. Each of its three cases has a name: `Result<Option<u32>, Refusal>` would say `Ok(None)`
// for what is done.
#[derive(Clone, Copy)]
pub enum Answer {
    Done,
    Value(u32),
    Refused(Refusal),
}

// The lines' pairs, line 0 at the lowest bit.
#[repr(C)]
#[derive(Clone, Copy)]
pub struct LinePairs {
    pub pos: u32,
    pub neg: u32,
}

// Interrupts and lines, class and line 0 at the lowest bits, in 32 bits so that there is no padding; each alert's acknowledge and ping pair, and each
// line's escalation pair.
#[repr(C)]
#[derive(Clone, Copy)]
pub struct Output {
    pub interrupts: u32,
    pub lines: u32,
    pub acknowledge: Wires,
    pub ping: Wires,
    pub escalation: LinePairs,
}

// A handler that was made, and the signed number that answers.
#[repr(C)]
#[derive(Clone, Copy)]
pub struct Made {
    pub handler: Handler,
    pub answer: i64,
}

// What step 1 hands to the later steps.
#[derive(Clone, Copy)]
pub struct Effects {
    // the classes with an accepted clear, class 0 at the lowest bit
    pub clears: u8,
    // the local alerts that it raises, local 0 at the lowest bit
    pub raises: u8,
    // the ping timer's enable becomes 1
    pub begins: bool,
}

// What step 2 hears in a tick: the receivers after it, the alerts with an event and those whose open ping is answered, alert i at bit
// 63 - i % 64 of word i / 64, and the local alerts that are raised, local 0 at the lowest bit. Which of them are enabled is not looked at.
#[derive(Clone, Copy)]
pub struct Heard {
    pub receivers: Receivers,
    pub events: [u64; WORDS],
    pub answers: [u64; WORDS],
    pub raises: u8,
    // what the ping timer met, up to what step 5 closes; whether the receive pairs are checked, and the answers to the open ping right up to now
    pub meets: Meets,
    pub checked: bool,
    pub right: bool,
}

// The state after step 1, the answer, and the effects.
#[derive(Clone, Copy)]
pub struct Accessed {
    pub handler: Handler,
    pub answer: Answer,
    pub effects: Effects,
}

#[derive(Clone, Copy)]
pub struct Ticked {
    pub handler: Handler,
    pub answer: Answer,
    pub output: Output,
}
