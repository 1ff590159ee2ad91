// What a dump shows, by the places of its fields.
ghost use Rattle.std.specs.Prelude.{◌≡◌, ◌+◌, ◌*◌, ◌≤◌};
ghost use Rattle.bits.specs.Index.{each};
ghost use Rattle.dump_content.specs.Places.{class_at_bit, flag_at_bit, stages_at_bit};
ghost use Rattle.dump_rules.specs.Content.{codes_by, content_by};
ghost use Rattle.dump_rules.specs.Reader.{shows, read_dump};
ghost use Rattle.dump_rules.specs.Shown.{Shown, limit};

use dump_map::Kind;
use dump_map::counts::zeros_behind;
use dump_reader::places::take_bits;
use dump_rules::{Content, ContentClass, REGISTERS};
use map::number::register_at;

// STATE, count and accumulator of a class.
fn class_at(bytes: &[u8], at: usize) -> ContentClass
    requires { at ≤ 1000 }
    ensures { result ≡ class_at_bit bytes.now at }
{
    ContentClass {
        state: take_bits(bytes, at, 3) as u32,
        count: take_bits(bytes, at + 3, 32) as u32,
        accum: take_bits(bytes, at + 35, 16) as u32,
    }
}

// Class by class: tried as `from_fn`, whose numbers have no bound in the proof.
#[inline(never)]
fn classes_at(bytes: &[u8]) -> [ContentClass; 4]
    ensures { result ≡ each 4 (λ k. class_at_bit bytes.now (40 + 51 * k)) }
{
    [
        class_at(bytes, 40),
        class_at(bytes, 91),
        class_at(bytes, 142),
        class_at(bytes, 193),
    ]
}

// A bit for each register of a kind, from bit `at` on, by register number.
fn flags_at(kind: Kind, bytes: &[u8], n: usize, at: usize) -> [u8; REGISTERS]
    requires { at ≤ 10000 }
    ensures { result ≡ each limit (flag_at_bit kind bytes.now n at) }
{
    let mut out = [0u8; REGISTERS];
    let mut p = at;
    for r in 0..REGISTERS {
        if kind.has(register_at(n, r as u16)) {
            out[r] = take_bits(bytes, p, 1) as u8;
            p += 1;
        }
    }
    out
}

// The codes of k stages from bit `at` on, by register number. Of two stages of one register the first counts.
fn codes_at(bytes: &[u8], at: usize, k: usize) -> [u64; REGISTERS]
    requires { (at ≤ 10000) × (k ≤ limit) }
    ensures { result ≡ codes_by (stages_at_bit bytes.now at k) }
{
    let mut out = [0u64; REGISTERS];
    for i in (0..k).rev() {
        let r = take_bits(bytes, at + 48 * i, 16) as usize;
        if r < REGISTERS {
            out[r] = take_bits(bytes, at + 48 * i + 16, 32) + 1;
        }
    }
    out
}

// The content of bytes that are a dump.
pub fn content_of(bytes: &[u8]) -> Content
    requires { (s : Shown) × (read_dump bytes.now ≡ shows s) }
    ensures { result ≡ content_by (read_dump bytes.now) }
{
    let n = take_bits(bytes, 32, 8) as usize;
    let causes = Kind::Cause.how_many(n);
    let locks = Kind::Lock.how_many(n);
    let at = 244 + causes + locks + zeros_behind(causes, locks);
    let k = take_bits(bytes, at, 16) as usize;
    Content {
        answer: 0,
        n,
        classes: classes_at(bytes),
        stages: codes_at(bytes, at + 16, k),
        causes: flags_at(Kind::Cause, bytes, n, 244),
        locked: flags_at(Kind::Lock, bytes, n, 244 + causes),
    }
}
