// The types of what stands between the wires and the registers, one alert at a time. Its rules are the definitions in specs/.
#![tactic(auto)]

// Where an alert's receiver stands in the handshake, request (viii).
#[derive(Clone, Copy)]
pub enum Handshake {
    // it takes a rise
    Ready,
    // it has taken one, and acknowledges it until the alert drops
    Acknowledged,
    // the alert has dropped: in the next tick the acknowledgement drops, the first tick of the pause
    FirstPause,
    // the next tick is the second of the pause
    SecondPause,
}

// One alert's receiver: where it stands, the level of its ping pair, and whether a ping is open.
#[derive(Clone, Copy)]
pub struct Receiver {
    pub stands: Handshake,
    pub level: bool,
    pub pending: bool,
}

// What it is given in a tick: whether its ping is asked for, and its wire pair.
#[derive(Clone, Copy)]
pub struct Given {
    pub asks: bool,
    pub pos: bool,
    pub neg: bool,
}

// What it gives in a tick.
#[derive(Clone, Copy)]
pub struct Received {
    // the receiver after it
    pub receiver: Receiver,
    // the acknowledge pair is (1,0), the ping pair is (1,0)
    pub acknowledge: bool,
    pub ping: bool,
    // the rise that is taken is an event, or it answers the open ping
    pub event: bool,
    pub answer: bool,
}

// The ping timer's turn, request (ix). Every value of each field means something.
#[repr(C)]
#[derive(Clone, Copy)]
pub struct Turn {
    // even: an alert's turn; odd: that of line number / 2 % 4
    pub number: u8,
    // the alert drawn
    pub alert: u8,
    // while the turn's ping is not open: the ticks to it, less one; while it is: the ticks since it opened, staying at 65,535
    pub count: u16,
}

// What the timer meets in a tick.
#[derive(Clone, Copy)]
pub struct Meets {
    // register 6 was 1 before the tick; it becomes 1 in this tick
    pub runs: bool,
    pub begins: bool,
    // register 5 after step 1
    pub timeout: u32,
    // the entropy word
    pub word: u32,
    // the drawn alert is below N, locked and enabled after step 1
    pub pingable: bool,
    // the turn's ping was open before the tick
    pub pending: bool,
    // it is answered in this tick; request (xi): an escalation on its line closes it, or keeps it from the wire
    pub answered: bool,
    pub closed: bool,
}

// Where an escalation receiver stands, by its pair in the ticks before, request (xi).
#[derive(Clone, Copy)]
pub enum Response {
    // off: nothing to answer
    Quiet,
    // on in the last tick and off before it: a ping, or the start of an escalation
    Checking,
    // off again after one tick: a ping, which it answers
    Answering,
    // on in the last two ticks: an escalation
    Escalating,
}

// An escalation receiver on sound wires: where it stands, and the answer that it sends in the coming tick.
#[derive(Clone, Copy)]
pub struct SoundReceiver {
    pub stands: Response,
    pub answer: bool,
}

// An escalation receiver on any wires: broken if they were equal in the last tick.
#[derive(Clone, Copy)]
pub struct EscalationReceiver {
    pub sound: SoundReceiver,
    pub broken: bool,
}

// The sender of one escalation line.
#[derive(Clone, Copy)]
pub struct Sender {
    // the line was on in the last tick; the last tick was the first of its being on
    pub on: bool,
    pub first: bool,
    // a sound receiver of all that was sent: it knows the right answer
    pub sound: SoundReceiver,
}

// The senders of the four lines, bit e for line e; bits from 4 up are never looked at. Any bits are four senders.
#[repr(C)]
#[derive(Clone, Copy)]
pub struct Senders {
    pub on: u32,
    pub first: u32,
    // where the sound receiver stands: its pair in the last tick, and 0 0 quiet, 1 0 checking, 0 1 answering, 1 1 escalating
    pub last: u32,
    pub deep: u32,
    // the right answer of the coming tick
    pub answer: u32,
}

// What a sender is given in a tick: the line, and whether the line's ping opens.
#[derive(Clone, Copy)]
pub struct Drive {
    pub line: bool,
    pub ping: bool,
}

// The receivers at the ends of the four lines, bit e for line e; bits from 4 up are never looked at. Any bits are four receivers, and 0 are four new ones.
#[repr(C)]
#[derive(Clone, Copy)]
pub struct LineReceivers {
    // where it stands: its pair in the last tick, and 0 0 quiet, 1 0 checking, 0 1 answering, 1 1 escalating
    pub last: u32,
    pub deep: u32,
    // the answer that it sends in the coming tick
    pub answer: u32,
    // its wires were equal in the last tick
    pub broken: u32,
}

// What they give in a tick.
#[repr(C)]
#[derive(Clone, Copy)]
pub struct Listened {
    // the receivers after it
    pub receivers: LineReceivers,
    // the pairs that they send back in it: positive and negative wires
    pub positive: u32,
    pub negative: u32,
    // the lines whose receiver sees an escalation in it
    pub seen: u32,
}
