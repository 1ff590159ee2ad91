// Request (xiv), the dump: types. Its definitions are in specs/, laws and examples of them in proofs/.
#![tactic(auto)]

// No register has this number or one above it.
pub const REGISTERS: usize = 1344;

// Why no dump is written, by the refusal's number.
#[derive(Clone, Copy)]
pub enum Unwritten {
    BadState = 7,
    ShortBuffer = 11,
}

// Why no content is read: the bytes are the start of a dump, cut, or no bytes; they are neither a dump nor that. The refusal's number.
#[derive(Clone, Copy)]
pub enum Unread {
    CutDump = 17,
    NoDump = 16,
}

// ---- The content for callers. Wide enough that no struct has padding. ----

#[repr(C)]
#[derive(Clone, Copy, Default)]
pub struct ContentClass {
    // STATE, ESC_CNT and ACCUM_CNT
    pub state: u32,
    pub count: u32,
    pub accum: u32,
}

// What a dump shows, by register number; where the answer is a refusal all else is 0.
#[repr(C)]
#[derive(Clone, Copy)]
pub struct Content {
    pub answer: i64,
    pub n: usize,
    pub classes: [ContentClass; 4],
    // a stage's code, as the state has it: 0 for none, the staged value plus 1
    pub stages: [u64; REGISTERS],
    // the causes, and 1 for each lock that is locked
    pub causes: [u8; REGISTERS],
    pub locked: [u8; REGISTERS],
}
