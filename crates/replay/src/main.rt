// "The program reads from standard input one byte N, then records, and prints each word".
#![tactic(auto)]

mod output; // output.rt: what is printed beside the words
mod records; // records.rt: the words of a part of the input, as text
mod rest; // rest.rt: the bytes of a record that has not come whole
mod session; // session.rt: the turns of a run

ghost use Rattle.std.specs.Prelude.{◌≡◌, ◌*◌};
ghost use Rattle.trace_rules.specs.Edition.{record_bytes, edition_by};

use output::{finish, refuse};
use records::TURN;
use session::run;
use state::new::new;
use std::io::Read;
use trace::edition::{ALERTS_64_BYTES, ALERTS_248_BYTES, PINGS_BYTES, WIRES_BYTES, alerts};
use trace_rules::Edition;

// A turn's bytes, by the edition.
const ALERTS_64_TURN: usize = TURN * ALERTS_64_BYTES;

const ALERTS_248_TURN: usize = TURN * ALERTS_248_BYTES;

const PINGS_TURN: usize = TURN * PINGS_BYTES;

const WIRES_TURN: usize = TURN * WIRES_BYTES;

// Runs records of this edition on a handler for N. Refused is also an N of more alerts than the edition speaks of.
fn start<const BYTES: usize>(
    input: &mut impl Read,
    rt: &(impl Print + Eprint),
    edition: Edition,
    n: u8,
)
    requires { BYTES ≡ 2048 * record_bytes edition }
{
    let made = new(n as usize);
    if alerts(edition) < n as usize || made.answer < 0 {
        refuse(rt);
    } else {
        run::<BYTES>(input, rt, edition, made.handler);
    }
}

// One byte of the input. That none came, or a read failed, is told as a missing N is.
fn read_byte(input: &mut impl Read, rt: &(impl Print + Eprint)) -> Option<u8> {
    let mut byte = [0u8; 1];
    match input.read(&mut byte) {
        Ok(1) => Some(byte[0]),
        none => {
            refuse(rt);
            finish(rt, 0, none.is_err());
            None
        }
    }
}

// The edition of the input, by its first byte.
#[tactic(auto, unfolding(trace_rules::specs::Edition::edition_by))]
fn choose(first: u8) -> Edition
    ensures { result ≡ edition_by first }
{
    match first {
        255 => Edition::Alerts248,
        254 => Edition::Pings,
        253 => Edition::Wires,
        _ => Edition::Alerts64,
    }
}

// N comes behind a first byte that names an edition; any other first byte is N itself.
fn play(input: &mut impl Read, rt: &(impl Print + Eprint)) -> Option<()> {
    let first = read_byte(input, rt)?;
    let edition = choose(first);
    let n = match edition {
        Edition::Alerts64 => first,
        _ => read_byte(input, rt)?,
    };
    match edition {
        Edition::Alerts64 => start::<ALERTS_64_TURN>(input, rt, edition, n),
        Edition::Alerts248 => start::<ALERTS_248_TURN>(input, rt, edition, n),
        Edition::Pings => start::<PINGS_TURN>(input, rt, edition, n),
        Edition::Wires => start::<WIRES_TURN>(input, rt, edition, n),
    }
    Some(())
}

fn main(rt: HostRuntime) {
    play(&mut rt.stdin(), &rt);
}
