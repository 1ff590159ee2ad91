// The types of one class. Its rules are the definitions in specs/.
#![tactic(auto)]

// The states of a class ("The class is in one of seven states"), with the numbers that STATE reads.
#[derive(Clone, Copy, PartialEq, Eq)]
pub enum ClassState {
    Idle = 0,
    Timeout = 1,
    Terminal = 3,
    Phase0 = 4,
    Phase1 = 5,
    Phase2 = 6,
    Phase3 = 7,
}

// The registers of a class's block. STATE is held as its number, since any number may come in, and in 32 bits, so that a class has no
// padding; refusal 7 judges it by its 3 bits.
#[repr(C)]
#[derive(Clone, Copy)]
pub struct Class {
    // PHASE0_CYC to PHASE3_CYC
    pub lengths: [u32; 4],
    // TIMEOUT_CYC
    pub timeout: u32,
    // ESC_CNT
    pub count: u32,
    // CTRL
    pub ctrl: u16,
    // ACCUM_CNT
    pub accum: u16,
    // ACCUM_THRESH
    pub thresh: u16,
    // class REGWEN
    pub regwen: u8,
    // CLR_REGWEN
    pub clrwen: u8,
    // STATE
    pub state: u32,
}

// What a class meets in a tick.
#[derive(Clone, Copy)]
pub struct Signals {
    // the class has an event
    pub event: bool,
    // its interrupt bit is now 1
    pub interrupt: bool,
    // an accepted clear of it
    pub clear: bool,
}

// A class's state and count.
#[derive(Clone, Copy)]
pub struct Place {
    pub state: ClassState,
    pub count: u32,
}
