// "Traces": a batch fills a lent list of 64-bit words, one per record.
#![tactic(auto)]

ghost use Rattle.std.specs.Prelude.{◌≡◌, true, ◌++◌, map, ◌≤◌, length, drop};
ghost use Rattle.escalation.specs.Escalation.{Demand3};
ghost use Rattle.trace_rules.specs.Batch.{admits, batch_verdict, batch_inputs};
ghost use Rattle.trace_rules.specs.Edition.{has_timer};
ghost use Rattle.trace_rules.specs.Record.{record_count, inputs_of};
ghost use Rattle.trace_rules.specs.Word.{word_of};
ghost use Rattle.handler.specs.Finished.{finished};
ghost use Rattle.handler.specs.QuietTick.{with_moved};
ghost use Rattle.rules.specs.Run.{run, ticks};
ghost use Rattle.rules.specs.State.{most};
ghost use Rattle.rules.specs.Valid.{valid};
ghost use Rattle.batch.specs.BatchedBy.{BatchedBy};

use answers::signed;
use handler::moving::{Moving, moving_of};
use handler::quiet::{Moved, moved_by, quiet_of};
use handler::tick::finish;
use registers::access::access_in;
use rules::{Answer, Effects, Handler, Refusal, Sample};
use samples::link::link;
use state::valid::is_valid;
use trace::edition::{alerts, record_bytes};
use trace::record::input_at;
use trace::word::word;
use trace_rules::Edition;

// The state that a batch leaves, and its answer.
#[repr(C)]
#[derive(Clone, Copy)]
pub struct Batched {
    pub handler: Handler,
    pub answer: i64,
}

// The interrupts and lines that a tick puts out.
#[derive(Clone, Copy)]
struct Shown {
    interrupts: u8,
    lines: u8,
}

// Steps 3 to 5, written into the state.
#[inline]
fn move_on(g: &mut Handler, moved: Moved) -> Shown
    ensures state { g.new ≡ with_moved g.old.links moved g.old }
    ensures shown { result ≡ record { interrupts = moved.interrupts; lines = moved.lines } }
{
    let classes = moved.classes;
    g.classes = classes;
    g.interrupts.state = moved.state;
    Shown {
        interrupts: moved.interrupts,
        lines: moved.lines,
    }
}

// The rest of the tick, written into the state where it stands: a tick in which all rests moves the ping timer's turn at most, one in which the alerts
// rest the senders and classes too, and a quiet tick writes what it moves; `finish` hands the state on by copies.
#[inline]
fn go_on(g: &mut Handler, effects: Effects, s: Sample) -> Shown
    requires { g.old.n ≤ most }
    ensures { record { handler = g.new; interrupts = result.interrupts; lines = result.lines } ≡ finished g.old effects s }
{
    match moving_of(*g, effects, s) {
        Some(Moving::Rests(count, interrupts)) => {
            g.links.turn.count = count;
            return Shown {
                interrupts,
                lines: 0,
            };
        }
        Some(Moving::Moves(count, senders, moved)) => {
            g.links.turn.count = count;
            g.links.senders = senders;
            return move_on(g, moved);
        }
        None => {}
    }
    if let Some(met) = quiet_of(*g, effects, s) {
        let moved = moved_by(g.classes, g.interrupts);
        g.links = link(g.links, met, moved.lines as u32);
        return move_on(g, moved);
    }
    let t = finish(*g, effects, s);
    *g = t.handler;
    Shown {
        interrupts: t.interrupts,
        lines: t.lines,
    }
}

// The ticks of all records, one after another, each with its word at its place. The first state is valid, so each state is.
fn run_records(edition: Edition, h: Handler, bytes: &[u8], out: &mut [u64], count: usize) -> Handler
    requires { (valid h ≡ true) × (count ≡ record_count edition bytes.now) × (count ≤ length out.old) }
    ensures { (result ≡ run h (inputs_of edition bytes.now)) × (out.new ≡ map word_of (ticks h (inputs_of edition bytes.now)) ++ drop count out.old) }
{
    let size = record_bytes(edition);
    let mut g = h;
    for i in 0..count {
        let x = input_at(edition, bytes, i * size);
        let (answer, effects) = access_in(&mut g, x.access);
        let shown = go_on(&mut g, effects, x.sample);
        out[i] = word(shown.interrupts, shown.lines, answer);
    }
    g
}

// Records of this edition name the ping timer's registers, request (ix).
fn has_timer(edition: Edition) -> bool
    ensures { result ≡ has_timer edition }
{
    matches!(edition, Edition::Pings | Edition::Wires)
}

// The state gets no refusal 7 from a batch of this edition.
fn is_admitted(edition: Edition, h: Handler) -> bool
    ensures { result ≡ admits edition h }
{
    is_valid(h) & ((h.n <= alerts(edition)) & (has_timer(edition) | (h.timer.enable != 1)))
}

// The verdict on a batch, in the order 7, 8, 9.
#[tactic(auto, unfolding(trace_rules::specs::Batch::batch_verdict, rules::specs::Answer::first_of))]
fn verdict_of(edition: Edition, h: &Handler, bytes: &[u8], out: &[u64]) -> Result<(), Refusal>
    ensures { result ≡ batch_verdict edition h.now bytes.now out.now }
{
    let size = record_bytes(edition);
    if !is_admitted(edition, *h) {
        return Err(Refusal::BadState);
    }
    if bytes.len() % size != 0 {
        return Err(Refusal::BadLength);
    }
    if out.len() < bytes.len() / size {
        return Err(Refusal::ShortList);
    }
    Ok(())
}

// A batch that is refused leaves state and list as they are; any other takes the ticks of its records and answers 0.
pub fn batch(edition: Edition, h: Handler, bytes: &[u8], out: &mut [u64]) -> Batched
    ensures batched_by { BatchedBy edition h bytes.now out.old result out.new }
    ensures demand3 { valid h ≡ true → Demand3 h (batch_inputs edition (batch_verdict edition h bytes.now out.old) bytes.now) }
{
    match verdict_of(edition, &h, bytes, out) {
        Ok(()) => Batched {
            handler: run_records(edition, h, bytes, out, bytes.len() / record_bytes(edition)),
            answer: signed(Answer::Done),
        },
        Err(m) => Batched {
            handler: h,
            answer: signed(Answer::Refused(m)),
        },
    }
}
