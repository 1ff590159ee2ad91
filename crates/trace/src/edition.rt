// What is known of an edition: the bytes of its record, the alerts that it speaks of, its register numbers.
// Kept: functions, since trace_rules declares `Edition` and another crate can't give it methods.
ghost use Rattle.std.specs.Prelude.{◌≡◌};
ghost use Rattle.trace_rules.specs.Edition as rules;

use trace_rules::Edition;

// The record of the edition of 64 alerts: its bytes, the numbers that its register field holds, and the lowest bit of that field in the
// first 64 bits.
pub const ALERTS_64_BYTES: usize = 24;

pub const ALERTS_64_REGISTERS: u16 = 1024;

pub const ALERTS_64_REGISTER_AT: u32 = 52;

// The same of the edition of 248 alerts, whose first 64 bits are those of the later editions too, and the numbers that its register field holds.
pub const ALERTS_248_BYTES: usize = 70;

pub const ALERTS_248_REGISTERS: u16 = 2048;

pub const ALERTS_248_REGISTER_AT: u32 = 51;

// The record of the edition of pings, and of the edition of receive wires.
pub const PINGS_BYTES: usize = 75;

pub const WIRES_BYTES: usize = 75;

// The bytes of a record.
pub fn record_bytes(edition: Edition) -> usize
    ensures { result ≡ rules.record_bytes edition }
{
    match edition {
        Edition::Alerts64 => ALERTS_64_BYTES,
        Edition::Alerts248 => ALERTS_248_BYTES,
        Edition::Pings => PINGS_BYTES,
        Edition::Wires => WIRES_BYTES,
    }
}

// The most alerts that it speaks of: a record has a positive and a negative wire of each.
pub fn alerts(edition: Edition) -> usize
    ensures { result ≡ rules.alerts edition }
{
    match edition {
        Edition::Alerts64 => 64,
        Edition::Alerts248 | Edition::Pings | Edition::Wires => 248,
    }
}

// Request (ix): registers 4, 5 and 6 are unassigned in older editions. 3 names nothing.
#[tactic(auto, unfolding(rules::specs::Map::number_of))]
fn without_timer(register: u16) -> u16
    ensures { result ≡ rules.without_timer register }
{
    match register {
        4..=6 => 3,
        _ => register,
    }
}

// Document 01's numbers carried to the map's. What was unassigned then stays so.
#[tactic(auto, unfolding(trace_rules::specs::Edition::carried64, rules::specs::Map::number_of))]
fn carry_64(register: u16) -> u16
    ensures { result ≡ rules.carried64 register }
{
    match register {
        0..64 => without_timer(register),
        64..320 => register / 64 * 256 + register % 64,
        320..384 => 1280 + (register - 320),
        _ => 3,
    }
}

// The map's number of the register that the edition numbers so; from request (ix) on an edition has the map's own.
#[tactic(auto, unfolding(trace_rules::specs::Edition::carried248))]
pub fn carry(edition: Edition, register: u16) -> u16
    ensures { result ≡ rules.carry edition register }
{
    match edition {
        Edition::Alerts64 => carry_64(register),
        Edition::Alerts248 => without_timer(register),
        Edition::Pings | Edition::Wires => register,
    }
}
