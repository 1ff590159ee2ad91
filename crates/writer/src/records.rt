// The parts of a record in the lent buffer, and the accesses that well-formed records hold.
ghost use Rattle.std.specs.Prelude.{◌≡◌, ℕ, true, ◌+◌, ◌*◌, ◌^◌, ◌<◌, ◌≤◌, length};
ghost use Rattle.std.proofs.lemmas.List.Edits.{sets};
ghost use Rattle.trace_rules.specs.Edition.{newest};
ghost use Rattle.trace_rules.specs.Record.{access_of, recordable};
ghost use Rattle.rules.specs.State.{words};
ghost use Rattle.writer.specs.Lent.{word_at};
ghost use Rattle.writer.specs.EntryParts.{access_word, word_bytes, set_bytes, last_bytes};

use crate::bytes::{put_half, put_seven, put_word};
use rules::{Access, WORDS};
use trace::edition::{ALERTS_248_REGISTER_AT, ALERTS_248_REGISTERS};
use trace::lines::pair_bits;

// Refusal 10: some accesses are in no well-formed record.
#[tactic(auto, unfolding(trace_rules::specs::Record::recordable))]
pub fn is_recordable(access: Access) -> bool
    ensures { result ≡ recordable newest access }
{
    match access {
        Access::Nothing => true,
        Access::Read(register) => register < ALERTS_248_REGISTERS,
        Access::Write(register, _) => register < ALERTS_248_REGISTERS,
        Access::Malformed => false,
    }
}

// 2 bits kind, 11 bits register, 19 zero bits, 32 bits value.
// Kept: an access's three numbers, since they stand in the record just as they are lent.
pub fn first_word(kind: u8, register: u16, value: u32) -> u64
    requires { recordable newest (access_of kind register value) ≡ true }
    ensures { result ≡ access_word (access_of kind register value) }
{
    ((kind as u64) << 62) + ((register as u64) << ALERTS_248_REGISTER_AT) + value as u64
}

// The words that a wire set has whole; of the last one it has seven bytes.
const WHOLE: usize = WORDS - 1;

// The words of entry i of a list that a wire set has whole, eight bytes each.
// Kept: a loop over indexes, since of parts that an iterator lends for writing a proof knows the length alone.
fn put_words(out: &mut [u8], at: usize, list: &[u64], i: usize)
    requires { (at + 24 ≤ length out.old) × (i * words + words ≤ length list.now) }
    ensures { out.new ≡ sets out.old at (word_bytes 3 (word_at list.now i)) }
{
    for v in 0..WHOLE {
        put_word(out, at + 8 * v, list[i * WORDS + v]);
    }
}

// The wires of entry i of a list: alert 0 first, 248 of them. A caller that sees the lists' numbers alone learns here that they are words of 64 bits.
pub fn put_wires(out: &mut [u8], at: usize, list: &[u64], i: usize)
    requires { (at + 31 ≤ length out.old) × (i * words + words ≤ length list.now) }
    ensures wrote { out.new ≡ sets out.old at (set_bytes (word_at list.now i)) }
    ensures words { (v : ℕ) → word_at list.now i v < 2 ^ 64 }
{
    put_words(out, at, list, i);
    put_seven(out, at + 24, list[i * WORDS + WHOLE]);
}

// Behind the wires: the entropy word and the four receive pairs, line 0 and positive wire first.
pub fn put_last(out: &mut [u8], at: usize, word: u32, p: u8, m: u8)
    requires { at + 5 ≤ length out.old }
    ensures { out.new ≡ sets out.old at (last_bytes word p m) }
{
    put_half(out, at, word);
    out[at + 4] = pair_bits(p, m);
}
