// The handler for callers in Rattle, and, through boundary_c, which exports each function, in C and Rust: making one, one tick and what it hears, a batch, calm ticks in
// one go, the trace writer, and the boot policy. Any state may come in, and any bytes are one.
#![tactic(auto)]

ghost use Rattle.std.specs.Prelude.{◌≡◌, true};
ghost use Rattle.batch.specs.BatchedBy.{BatchedBy};
ghost use Rattle.bits.specs.Bits.{bit};
ghost use Rattle.calm.specs.CalmedBy.{CalmedBy};
ghost use Rattle.boundary.specs.Input.{access_by, sample_by, input_by};
ghost use Rattle.dump_rules.specs.Content.{content_by};
ghost use Rattle.dump_rules.specs.Reader.{read_dump};
ghost use Rattle.dump_rules.specs.Writer.{WroteDump};
ghost use Rattle.escalation.specs.Escalation.{Demand3};
ghost use Rattle.handler.specs.Account.{account};
ghost use Rattle.handler.specs.Answered.{answered};
ghost use Rattle.link_rules.specs.LineReceivers.{listened_all};
ghost use Rattle.policy.specs.Plan.{boot, lifecycle_of};
ghost use Rattle.trace_rules.specs.Batch.{batch_verdict, batch_inputs};
ghost use Rattle.rules.specs.State.{made};
ghost use Rattle.rules.specs.Tick.{ticked};
ghost use Rattle.rules.specs.Valid.{valid};
ghost use Rattle.writer.specs.Lent.{lent, Wrote, ReadBack, WrittenBack};

use batch::{Batched, batch};
use calm::call::calm;
use calm_rules::Calmed;
use dump_content::read::read_dump;
use dump_rules::Content;
use dump_writer::write::write_dump;
use handler::account::{Account, account_of};
use handler::tick::{Answered, tick};
use installer::{boot, lifecycle_of};
use link_rules::{LineReceivers, Listened};
use policy::Installed;
use rules::{Access, Handler, Input, Made, Receive, Sample, Wires};
use senders::listen::listen;
use state::new::new;
use trace::record::access_of;
use trace_rules::Edition;
use writer::write;

// The access by a kind's number: 0 none, 1 read, 2 write. Any other is a malformed record. What the kind does not use is not looked at.
fn access_by(kind: u8, register: u16, value: u32) -> Access
    ensures { result ≡ access_by kind register value }
{
    match kind {
        0 => access_of(kind, 0, 0),
        2 => access_of(kind, register, value),
        _ => access_of(kind, register, 0),
    }
}

// What comes in on the wires, and the entropy word: the alerts' pairs, and the positive and negative wires of the lines' receive pairs, line 0 at the
// lowest bit; bits from 4 up count for nothing.
#[repr(C)]
#[derive(Clone, Copy)]
pub struct Wired {
    pub alerts: Wires,
    pub word: u32,
    pub receive_positive: u16,
    pub receive_negative: u16,
}

// The sample that it is: receive pairs are checked.
fn sample_by(w: Wired) -> Sample
    ensures { result ≡ sample_by w }
{
    Sample {
        alerts: w.alerts,
        word: w.word,
        receive: Receive::Pairs(w.receive_positive as u32, w.receive_negative as u32),
    }
}

// What a tick is given: the access, and the wires.
fn input_by(kind: u8, register: u16, value: u32, wires: Wired) -> Input
    ensures { result ≡ input_by kind register value wires }
{
    Input {
        access: access_by(kind, register, value),
        sample: sample_by(wires),
    }
}

// A handler for n alerts, or refusal 6.
pub fn tarravane_new(n: usize) -> Made
    ensures { result ≡ made n }
{
    new(n)
}

// One tick of any state, with what comes in on the wires.
pub fn tarravane_tick(h: Handler, kind: u8, register: u16, value: u32, wires: Wired) -> Answered
    ensures { result ≡ answered (ticked h (input_by kind register value wires)) }
{
    tick(h, input_by(kind, register, value, wires))
}

// What that tick hears: it changes nothing.
pub fn tarravane_hear(h: Handler, kind: u8, register: u16, value: u32, wires: Wired) -> Account
    ensures { result ≡ account h (input_by kind register value wires) }
{
    account_of(h, input_by(kind, register, value, wires))
}

// The ticks of the old records, of 24 bytes, a word for each.
pub fn tarravane_batch_24(h: Handler, bytes: &[u8], out: &mut [u64]) -> Batched
    ensures batched_by { BatchedBy Edition.Alerts64 h bytes.now out.old result out.new }
    ensures demand3 { valid h ≡ true → Demand3 h (batch_inputs Edition.Alerts64 (batch_verdict Edition.Alerts64 h bytes.now out.old) bytes.now) }
{
    batch(Edition::Alerts64, h, bytes, out)
}

// The ticks of the records of 70 bytes, a word for each.
pub fn tarravane_batch_70(h: Handler, bytes: &[u8], out: &mut [u64]) -> Batched
    ensures batched_by { BatchedBy Edition.Alerts248 h bytes.now out.old result out.new }
    ensures demand3 { valid h ≡ true → Demand3 h (batch_inputs Edition.Alerts248 (batch_verdict Edition.Alerts248 h bytes.now out.old) bytes.now) }
{
    batch(Edition::Alerts248, h, bytes, out)
}

// The ticks of the records of 75 bytes with the ping timer's word and answers, first byte 254, a word for each.
pub fn tarravane_batch_pings(h: Handler, bytes: &[u8], out: &mut [u64]) -> Batched
    ensures batched_by { BatchedBy Edition.Pings h bytes.now out.old result out.new }
    ensures demand3 { valid h ≡ true → Demand3 h (batch_inputs Edition.Pings (batch_verdict Edition.Pings h bytes.now out.old) bytes.now) }
{
    batch(Edition::Pings, h, bytes, out)
}

// The ticks of the newest records, of 75 bytes with the word and receive pairs, first byte 253, a word for each.
pub fn tarravane_batch_wires(h: Handler, bytes: &[u8], out: &mut [u64]) -> Batched
    ensures batched_by { BatchedBy Edition.Wires h bytes.now out.old result out.new }
    ensures demand3 { valid h ≡ true → Demand3 h (batch_inputs Edition.Wires (batch_verdict Edition.Wires h bytes.now out.old) bytes.now) }
{
    batch(Edition::Wires, h, bytes, out)
}

// Calm ticks in one go: as many, without access and on these wires; a word for each tick at which a line changed.
pub fn tarravane_calm(h: Handler, wires: Wires, ticks: u32, out: &mut [u64]) -> Calmed
    ensures { CalmedBy h wires ticks out.old result out.new }
{
    calm(h, wires, ticks, out)
}

// A record for each entry of the lent lists, into the lent buffer.
pub fn tarravane_record(
    kinds: &[u8],
    registers: &[u16],
    values: &[u32],
    positive: &[u64],
    negative: &[u64],
    entropy: &[u32],
    receive_positive: &[u8],
    receive_negative: &[u8],
    out: &mut [u8],
) -> i64
    ensures wrote { Wrote (lent kinds.now registers.now values.now positive.now negative.now entropy.now receive_positive.now receive_negative.now) out.old result out.new }
    ensures readback { ReadBack (lent kinds.now registers.now values.now positive.now negative.now entropy.now receive_positive.now receive_negative.now) out.old out.new }
    ensures writtenback { WrittenBack (lent kinds.now registers.now values.now positive.now negative.now entropy.now receive_positive.now receive_negative.now) out.old out.new }
{
    write(
        kinds,
        registers,
        values,
        positive,
        negative,
        entropy,
        receive_positive,
        receive_negative,
        out,
    )
}

// The boot policy of the lifecycle of this number, installed and read back.
pub fn tarravane_install(h: Handler, lifecycle: u8) -> Installed
    ensures { result ≡ boot (lifecycle_of lifecycle) h }
{
    boot(h, lifecycle_of(lifecycle))
}

// A tick of the receivers at the lines' ends, in which the lines' pairs are these: what they send back, what they see, and the receivers after it.
pub fn tarravane_receive(r: LineReceivers, positive: u32, negative: u32) -> Listened
    ensures { result ≡ listened_all r (bit positive) (bit negative) }
{
    listen(r, positive, negative)
}

// The dump of any state, into the lent buffer.
pub fn tarravane_dump(h: Handler, out: &mut [u8]) -> i64
    ensures { WroteDump h out.old result out.new }
{
    write_dump(h, out)
}

// The content of any bytes, if they are a dump.
pub fn tarravane_read_dump(bytes: &[u8]) -> Content
    ensures { result ≡ content_by (read_dump bytes.now) }
{
    read_dump(bytes)
}
