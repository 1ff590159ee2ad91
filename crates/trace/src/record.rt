// "Traces": the access and sample of a record. Most significant bit first.
ghost use Rattle.std.specs.Prelude.{◌≡◌, ◌+◌, ◌*◌, ◌^◌, ◌≤◌, length, take, drop};
ghost use Rattle.bits.specs.Fields.{of_bytes};
ghost use Rattle.trace_rules.specs.Edition.{record_bytes, alerts};
ghost use Rattle.trace_rules.specs.Record as rules;
ghost use Rattle.trace_rules.specs.Record.{access_of, access_in, input_of, wire_words};
ghost use Rattle.trace.specs.RecordParts.{wire_bytes, wires_from, tail_bytes, head_at, head_of, fields_of, tail_of, behind_of};

use crate::edition;
use crate::edition::{ALERTS_64_REGISTER_AT, ALERTS_248_REGISTER_AT, carry};
use crate::lines::receive_of;
use rules::{Access, Input, Sample, WORDS, Wires};
use trace_rules::Edition;

// Four bytes as one number.
fn half_at(bytes: &[u8], at: usize) -> u32
    requires { at + 4 ≤ length bytes.now }
    ensures { result ≡ of_bytes (take 4 (drop at bytes.now)) }
{
    u32::from_be_bytes([bytes[at], bytes[at + 1], bytes[at + 2], bytes[at + 3]])
}

// Eight bytes as one number.
fn word_at(bytes: &[u8], at: usize) -> u64
    requires { at + 8 ≤ length bytes.now }
    ensures { result ≡ of_bytes (take 8 (drop at bytes.now)) }
{
    ((half_at(bytes, at) as u64) << 32) + half_at(bytes, at + 4) as u64
}

// Kind: 0 none, 1 read, 2 write. Malformed: kind 3, a read with a value, kind 0 with a register or value.
// Kept: the kind is a number, since it is two bits of a record here and what C passes to `tarravane_tick`.
#[tactic(auto, unfolding(trace_rules::specs::Record::access_of))]
pub fn access_of(kind: u8, register: u16, value: u32) -> Access
    ensures { result ≡ access_of kind register value }
{
    match (kind, register, value) {
        (0, 0, 0) => Access::Nothing,
        (1, _, 0) => Access::Read(register),
        (2, _, _) => Access::Write(register, value),
        _ => Access::Malformed,
    }
}

// The fields of a record's first 64 bits.
#[derive(Clone, Copy)]
struct Head {
    kind: u8,
    register: u16,
    zeros: u32,
    value: u32,
}

// The fields behind a record's wires: the entropy word, zero bits, and what comes back from the lines.
#[derive(Clone, Copy, Default)]
struct Tail {
    word: u32,
    zeros: u8,
    lines: u8,
}

// Malformed too: a nonzero bit among the zero bits of a record, which are those of its head and of its tail.
fn access_in(head: Head, tail: Tail) -> Access
    ensures { result ≡ access_in (fields_of head) (behind_of tail) }
{
    if head.zeros == 0 && tail.zeros == 0 {
        access_of(head.kind, head.register, head.value)
    } else {
        Access::Malformed
    }
}

// The head in the first 64 bits of a record whose register field begins at bit `at`: 2 bits kind, the register, zero bits, 32 bits value.
fn head_at(first: u64, at: u32) -> Head
    requires { (46 ≤ at) × (at ≤ 62) }
    ensures { result ≡ head_at at first }
{
    Head {
        kind: (first >> 62) as u8,
        register: ((first >> at) % (1 << (62 - at))) as u16,
        zeros: ((first >> 32) % (1 << (at - 32))) as u32,
        value: (first % 4294967296) as u32,
    }
}

// Document 01's register has 10 bits, and that of the later editions 11.
fn head_of(edition: Edition, first: u64) -> Head
    ensures { result ≡ head_of edition first }
{
    match edition {
        Edition::Alerts64 => head_at(first, ALERTS_64_REGISTER_AT),
        Edition::Alerts248 | Edition::Pings | Edition::Wires => {
            head_at(first, ALERTS_248_REGISTER_AT)
        }
    }
}

// The access with the map's register number.
fn carried(edition: Edition, access: Access) -> Access
    ensures { result ≡ rules.carried edition access }
{
    match access {
        Access::Read(register) => Access::Read(carry(edition, register)),
        Access::Write(register, value) => Access::Write(carry(edition, register), value),
        Access::Nothing | Access::Malformed => access,
    }
}

// Seven bytes at the top of a word.
fn seven_at(bytes: &[u8], at: usize) -> u64
    requires { at + 7 ≤ length bytes.now }
    ensures { result ≡ of_bytes (take 7 (drop at bytes.now)) * 2 ^ 8 }
{
    let low = u32::from_be_bytes([bytes[at + 4], bytes[at + 5], bytes[at + 6], 0]);
    ((half_at(bytes, at) as u64) << 32) + low as u64
}

// 64 positive and 64 negative wires, of alerts 0 to 63.
// Kept: beside `wires_248`, since a set of 64 is one word and a set of 248 is three words and seven bytes.
fn wires_64(bytes: &[u8], at: usize) -> Wires
    requires { at + 16 ≤ length bytes.now }
    ensures { result ≡ wires_from 64 8 at bytes.now }
{
    Wires {
        pos: [word_at(bytes, at), 0, 0, 0],
        neg: [word_at(bytes, at + 8), 0, 0, 0],
    }
}

// The words of 248 wires: three, and seven bytes of the last.
fn set_at(bytes: &[u8], at: usize) -> [u64; WORDS]
    requires { at + 31 ≤ length bytes.now }
    ensures { result ≡ wire_words 248 (of_bytes (take 31 (drop at bytes.now))) }
{
    [
        word_at(bytes, at),
        word_at(bytes, at + 8),
        word_at(bytes, at + 16),
        seven_at(bytes, at + 24),
    ]
}

// 248 of each.
fn wires_248(bytes: &[u8], at: usize) -> Wires
    requires { at + 62 ≤ length bytes.now }
    ensures { result ≡ wires_from 248 31 at bytes.now }
{
    Wires {
        pos: set_at(bytes, at),
        neg: set_at(bytes, at + 31),
    }
}

// The wires of a record that begin at a place, the first one at the highest bit of the first word.
fn wires_at(edition: Edition, bytes: &[u8], at: usize) -> Wires
    requires { at + wire_bytes edition + wire_bytes edition ≤ length bytes.now }
    ensures { result ≡ wires_from (alerts edition) (wire_bytes edition) at bytes.now }
{
    match edition {
        Edition::Alerts64 => wires_64(bytes, at),
        Edition::Alerts248 | Edition::Pings | Edition::Wires => wires_248(bytes, at),
    }
}

// The tail of a record that begins at a place. Request (ix): the word, four zero bits and four answer bits; request (xi): the word and the four
// receive pairs, with no zero bit. The oldest editions have none, which is word 0 and no answer.
fn tail_at(edition: Edition, bytes: &[u8], at: usize) -> Tail
    requires { at + tail_bytes edition ≤ length bytes.now }
    ensures { result ≡ tail_of edition (of_bytes (take (tail_bytes edition) (drop at bytes.now))) }
{
    match edition {
        Edition::Alerts64 | Edition::Alerts248 => Tail::default(),
        Edition::Pings => Tail {
            word: half_at(bytes, at),
            zeros: bytes[at + 4] / 16,
            lines: bytes[at + 4] % 16,
        },
        Edition::Wires => Tail {
            word: half_at(bytes, at),
            zeros: 0,
            lines: bytes[at + 4],
        },
    }
}

// The record whose first byte is at a place: the access, the positive wires with alert 0 first, the negative wires, the word and
// what comes back from the lines.
pub fn input_at(edition: Edition, bytes: &[u8], at: usize) -> Input
    requires { at + record_bytes edition ≤ length bytes.now }
    ensures { result ≡ input_of edition (take (record_bytes edition) (drop at bytes.now)) }
{
    let wires = edition::alerts(edition) / 8;
    let tail = tail_at(edition, bytes, at + 8 + wires + wires);
    let head = head_of(edition, word_at(bytes, at));
    Input {
        access: carried(edition, access_in(head, tail)),
        sample: Sample {
            alerts: wires_at(edition, bytes, at + 8),
            word: tail.word,
            receive: receive_of(edition, tail.lines),
        },
    }
}
