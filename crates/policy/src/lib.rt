// Request (vi), boot policy: types. Its definitions are in specs/, examples of them in proofs/, the theorems in crate boot_laws.
#![tactic(auto)]

use rules::Handler;

// How an alert is marked: a class, or X for none.
#[derive(Clone, Copy, PartialEq, Eq)]
pub enum Mark {
    A,
    B,
    C,
    D,
    X,
}

#[derive(Clone, Copy)]
pub enum Lifecycle {
    Raw,
    Prod,
    ProdEnd,
    Dev,
    Rma,
    Scrap,
}

// Why a boot does not begin, and the number of that refusal.
#[derive(Clone, Copy)]
pub enum Bar {
    BadState = 7,
    FewAlerts = 13,
}

// What a boot gives: the state reached, the answer as one signed number, and the register at which it stopped, 0 where at none.
// The spare bytes are 0: they are where padding would be.
#[repr(C)]
#[derive(Clone, Copy)]
pub struct Installed {
    pub handler: Handler,
    pub answer: i64,
    pub register: u16,
    pub spare: [u8; 6],
}
