// What the boundary promises, once more. It is no product surface and nobody links it: each function calls one of the boundary's and promises that this gives what
// every library gives of which all sentences hold (`AsSaid`), and then each part of what comes back by itself, so that a part which the boundary's contract leaves
// out no longer proves here.
#![tactic(auto)]

ghost use Rattle.std.specs.Prelude.{◌≡◌, true};
ghost use Rattle.bits.specs.Bits.{bit, bits_of};
ghost use Rattle.boundary.specs.Input.{input_by};
ghost use Rattle.calm_rules.specs.Call.{calmed, call_inputs};
ghost use Rattle.dump_rules.specs.Content.{content_by};
ghost use Rattle.dump_rules.specs.Reader.{read_dump};
ghost use Rattle.dump_rules.specs.Writer.{write_dump};
ghost use Rattle.escalation.specs.Escalation.{Demand3};
ghost use Rattle.everything.specs.Calling.{AsSaid, AsSaidOf, lists, do_new, do_tick, do_hear, do_batch, do_record, do_receive, do_install, do_calm, do_dump, do_read, of_new, of_tick, of_hear, of_batch, of_record, of_receive, of_install, of_calm, of_dump, of_read};
ghost use Rattle.handler.specs.Account.{account};
ghost use Rattle.link_rules.specs.EscalationReceiver.{responds_positive, responds_negative, escalates, listened};
ghost use Rattle.link_rules.specs.LineReceivers.{escalation_receiver_in, line_receivers_by};
ghost use Rattle.link_rules.specs.Senders.{line_count};
ghost use Rattle.policy.specs.Plan.{boot, lifecycle_of};
ghost use Rattle.rules.specs.Answer.{number};
ghost use Rattle.rules.specs.Run.{run};
ghost use Rattle.rules.specs.State.{made};
ghost use Rattle.rules.specs.Tick.{ticked};
ghost use Rattle.rules.specs.Valid.{valid};
ghost use Rattle.surface.specs.CallParts.{ran_by, Words, LaterWords, CalmWords, CalmLater, SameInputs, SameNumbers, SameBytes};
ghost use Rattle.trace_rules.specs.Batch.{batch_answer, batch_verdict};
ghost use Rattle.writer.specs.Lent.{lent, write_lent};

use batch::Batched;
use boundary::{
    Wired, tarravane_batch_24, tarravane_batch_70, tarravane_batch_pings, tarravane_batch_wires,
    tarravane_calm, tarravane_dump, tarravane_hear, tarravane_install, tarravane_new,
    tarravane_read_dump, tarravane_receive, tarravane_record, tarravane_tick,
};
use calm_rules::Calmed;
use dump_rules::Content;
use handler::account::Account;
use handler::tick::Answered;
use link_rules::{LineReceivers, Listened};
use policy::Installed;
use rules::{Handler, Made, Wires};
use trace_rules::Edition;

pub fn make(n: usize) -> Made
    ensures said { AsSaidOf (do_new n) (of_new result) }
    ensures handler_value { result.handler ≡ (made n).handler }
    ensures answer { result.answer ≡ (made n).answer }
{
    tarravane_new(n)
}

pub fn tick(h: Handler, kind: u8, register: u16, value: u32, wires: Wired) -> Answered
    ensures said { AsSaid h (do_tick kind register value wires) (of_tick result) }
    ensures handler_value { result.handler ≡ (ticked h (input_by kind register value wires)).handler }
    ensures answer { result.answer ≡ number (ticked h (input_by kind register value wires)).answer }
    ensures outputs { result.output ≡ (ticked h (input_by kind register value wires)).output }
{
    tarravane_tick(h, kind, register, value, wires)
}

pub fn hear(h: Handler, kind: u8, register: u16, value: u32, wires: Wired) -> Account
    ensures said { AsSaid h (do_hear kind register value wires) (of_hear result) }
    ensures events_value { result.events ≡ (account h (input_by kind register value wires)).events }
    ensures answers { result.answers ≡ (account h (input_by kind register value wires)).answers }
    ensures locals { result.locals ≡ (account h (input_by kind register value wires)).locals }
    ensures answer { result.answer ≡ number (ticked h (input_by kind register value wires)).answer }
{
    tarravane_hear(h, kind, register, value, wires)
}

pub fn batch_24(h: Handler, bytes: &[u8], out: &mut [u64]) -> Batched
    ensures said { AsSaid h (do_batch Edition.Alerts64 bytes.now out.old) (of_batch result out.new) }
    ensures handler_value { result.handler ≡ run h (ran_by Edition.Alerts64 h bytes.now out.old) }
    ensures answer { result.answer ≡ batch_answer (batch_verdict Edition.Alerts64 h bytes.now out.old) }
    ensures words { Words Edition.Alerts64 h bytes.now out.old out.new }
    ensures later { LaterWords Edition.Alerts64 h bytes.now out.old out.new }
    ensures demand3 { valid h ≡ true → Demand3 h (ran_by Edition.Alerts64 h bytes.now out.old) }
{
    tarravane_batch_24(h, bytes, out)
}

pub fn batch_70(h: Handler, bytes: &[u8], out: &mut [u64]) -> Batched
    ensures said { AsSaid h (do_batch Edition.Alerts248 bytes.now out.old) (of_batch result out.new) }
    ensures handler_value { result.handler ≡ run h (ran_by Edition.Alerts248 h bytes.now out.old) }
    ensures answer { result.answer ≡ batch_answer (batch_verdict Edition.Alerts248 h bytes.now out.old) }
    ensures words { Words Edition.Alerts248 h bytes.now out.old out.new }
    ensures later { LaterWords Edition.Alerts248 h bytes.now out.old out.new }
    ensures demand3 { valid h ≡ true → Demand3 h (ran_by Edition.Alerts248 h bytes.now out.old) }
{
    tarravane_batch_70(h, bytes, out)
}

pub fn batch_pings(h: Handler, bytes: &[u8], out: &mut [u64]) -> Batched
    ensures said { AsSaid h (do_batch Edition.Pings bytes.now out.old) (of_batch result out.new) }
    ensures handler_value { result.handler ≡ run h (ran_by Edition.Pings h bytes.now out.old) }
    ensures answer { result.answer ≡ batch_answer (batch_verdict Edition.Pings h bytes.now out.old) }
    ensures words { Words Edition.Pings h bytes.now out.old out.new }
    ensures later { LaterWords Edition.Pings h bytes.now out.old out.new }
    ensures demand3 { valid h ≡ true → Demand3 h (ran_by Edition.Pings h bytes.now out.old) }
{
    tarravane_batch_pings(h, bytes, out)
}

pub fn batch_wires(h: Handler, bytes: &[u8], out: &mut [u64]) -> Batched
    ensures said { AsSaid h (do_batch Edition.Wires bytes.now out.old) (of_batch result out.new) }
    ensures handler_value { result.handler ≡ run h (ran_by Edition.Wires h bytes.now out.old) }
    ensures answer { result.answer ≡ batch_answer (batch_verdict Edition.Wires h bytes.now out.old) }
    ensures words { Words Edition.Wires h bytes.now out.old out.new }
    ensures later { LaterWords Edition.Wires h bytes.now out.old out.new }
    ensures demand3 { valid h ≡ true → Demand3 h (ran_by Edition.Wires h bytes.now out.old) }
{
    tarravane_batch_wires(h, bytes, out)
}

pub fn calm(h: Handler, wires: Wires, ticks: u32, out: &mut [u64]) -> Calmed
    ensures said { AsSaid h (do_calm wires ticks out.old) (of_calm result out.new) }
    ensures handler_value { result.handler ≡ run h (call_inputs h wires ticks out.old) }
    ensures answer { result.answer ≡ (calmed h wires ticks out.old).answer }
    ensures outputs { result.output ≡ (calmed h wires ticks out.old).output }
    ensures words { CalmWords h wires ticks out.old out.new }
    ensures later { CalmLater h wires ticks out.old out.new }
    ensures demand3 { valid h ≡ true → Demand3 h (call_inputs h wires ticks out.old) }
{
    tarravane_calm(h, wires, ticks, out)
}

pub fn write(
    kinds: &[u8],
    registers: &[u16],
    values: &[u32],
    positive: &[u64],
    negative: &[u64],
    entropy: &[u32],
    receive_positive: &[u8],
    receive_negative: &[u8],
    out: &mut [u8],
) -> i64
    ensures said { AsSaidOf (do_record (lists kinds.now registers.now values.now positive.now negative.now entropy.now receive_positive.now receive_negative.now) out.old) (of_record result out.new) }
    ensures value { result ≡ (write_lent (lent kinds.now registers.now values.now positive.now negative.now entropy.now receive_positive.now receive_negative.now) out.old).answer }
    ensures bytes { out.new ≡ (write_lent (lent kinds.now registers.now values.now positive.now negative.now entropy.now receive_positive.now receive_negative.now) out.old).buffer }
    ensures inputs { SameInputs (lent kinds.now registers.now values.now positive.now negative.now entropy.now receive_positive.now receive_negative.now) out.old out.new }
    ensures numbers { SameNumbers (lent kinds.now registers.now values.now positive.now negative.now entropy.now receive_positive.now receive_negative.now) out.old }
    ensures writtenback { SameBytes (lent kinds.now registers.now values.now positive.now negative.now entropy.now receive_positive.now receive_negative.now) out.old out.new }
{
    tarravane_record(
        kinds,
        registers,
        values,
        positive,
        negative,
        entropy,
        receive_positive,
        receive_negative,
        out,
    )
}

pub fn install(h: Handler, lifecycle: u8) -> Installed
    ensures said { AsSaid h (do_install lifecycle) (of_install result) }
    ensures handler_value { result.handler ≡ (boot (lifecycle_of lifecycle) h).handler }
    ensures answer { result.answer ≡ (boot (lifecycle_of lifecycle) h).answer }
    ensures register { result.register ≡ (boot (lifecycle_of lifecycle) h).register }
{
    tarravane_install(h, lifecycle)
}

pub fn receive(r: LineReceivers, positive: u32, negative: u32) -> Listened
    ensures said { AsSaidOf (do_receive r positive negative) (of_receive result) }
    ensures receivers_value { result.receivers ≡ line_receivers_by (λ e. listened (escalation_receiver_in r e) (bit positive e) (bit negative e)) }
    ensures positive { result.positive ≡ bits_of line_count (λ e. responds_positive (escalation_receiver_in r e)) }
    ensures negative { result.negative ≡ bits_of line_count (λ e. responds_negative (escalation_receiver_in r e)) }
    ensures seen { result.seen ≡ bits_of line_count (λ e. escalates (escalation_receiver_in r e) (bit positive e) (bit negative e)) }
{
    tarravane_receive(r, positive, negative)
}

pub fn dump(h: Handler, out: &mut [u8]) -> i64
    ensures said { AsSaid h (do_dump out.old) (of_dump result out.new) }
    ensures value { result ≡ (write_dump h out.old).answer }
    ensures bytes { out.new ≡ (write_dump h out.old).buffer }
{
    tarravane_dump(h, out)
}

pub fn read_dump(bytes: &[u8]) -> Content
    ensures said { AsSaidOf (do_read bytes.now) (of_read result) }
    ensures answer_value { result.answer ≡ (content_by (read_dump bytes.now)).answer }
    ensures alerts { result.n ≡ (content_by (read_dump bytes.now)).n }
    ensures classes { result.classes ≡ (content_by (read_dump bytes.now)).classes }
    ensures stages { result.stages ≡ (content_by (read_dump bytes.now)).stages }
    ensures causes { result.causes ≡ (content_by (read_dump bytes.now)).causes }
    ensures locked { result.locked ≡ (content_by (read_dump bytes.now)).locked }
{
    tarravane_read_dump(bytes)
}
