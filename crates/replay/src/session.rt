// The turns of a run. A turn reads standard input once, so that what a live source has sent is taken at once.
ghost use Rattle.std.specs.Prelude.{◌≡◌, true, ◌*◌, ◌≤◌, ◌<◌, take};
ghost use Rattle.trace_rules.specs.Batch.{admits};
ghost use Rattle.trace_rules.specs.Edition.{record_bytes};
ghost use Rattle.replay.specs.Rest.{Ran, Turned};

use crate::output::{finish, print};
use crate::records::{TEXT, replay};
use crate::rest::keep_rest;
use rules::Handler;
use std::io::Read;
use trace_rules::Edition;

// The state after the turns so far, and a buffer of a turn's bytes, at whose start wait the bytes of a record that has not come whole.
#[derive(Drop)]
struct Session<const BYTES: usize> {
    edition: Edition,
    handler: Handler,
    buffer: [u8; BYTES],
    rest: usize,
    ghost admitted: { admits edition handler ≡ true },
    ghost turn: { BYTES ≡ 2048 * record_bytes edition },
    ghost short: { rest < record_bytes edition },
}

impl<const BYTES: usize> Session<BYTES> {
    // Runs the whole records of count bytes, keeps the rest for the next turn, prints the words, and says whether it could.
    fn run_whole(&mut self, rt: &(impl Print + Eprint), count: usize) -> bool
        requires { count ≤ BYTES }
        ensures ran { Ran self.old.edition self.old.handler (take count self.old.buffer) self.new.handler self.new.rest self.new.buffer }
        ensures edition { self.new.edition ≡ self.old.edition }
    {
        let mut text = [0u8; TEXT];
        let done = replay(self.edition, self.handler, &self.buffer[..count], &mut text);
        self.handler = done.handler;
        self.rest = keep_rest(self.edition, &mut self.buffer, count);
        print(rt, &text[..done.written])
    }

    // Reads once behind the bytes that wait, runs what is whole now, and says whether another turn follows. A read that gives nothing makes the
    // turn the last.
    fn take_turn(&mut self, input: &mut impl Read, rt: &(impl Print + Eprint)) -> bool
        ensures turned { Turned self.old.edition self.old.handler (take self.old.rest self.old.buffer) self.new.handler self.new.rest self.new.buffer }
        ensures edition { self.new.edition ≡ self.old.edition }
    {
        let buffer = &mut self.buffer[..];
        match input.read(&mut buffer[self.rest..]) {
            Ok(count) if 0 < count => self.run_whole(rt, self.rest + count),
            none => {
                finish(rt, self.rest, none.is_err());
                false
            }
        }
    }

    // Takes turns to the last: together they are as one turn, which reads all that comes. A proved loop has to end, and nothing says that the input
    // does: so it counts its turns, up to a number that no run uses up.
    fn take_turns(&mut self, input: &mut impl Read, rt: &(impl Print + Eprint))
        ensures { Turned self.old.edition self.old.handler (take self.old.rest self.old.buffer) self.new.handler self.new.rest self.new.buffer }
    {
        for _ in 0..u64::MAX {
            if !self.take_turn(input, rt) {
                return;
            }
        }
    }
}

// Runs records of this edition on a handler.
pub fn run<const BYTES: usize>(
    input: &mut impl Read,
    rt: &(impl Print + Eprint),
    edition: Edition,
    handler: Handler,
)
    requires { (admits edition handler ≡ true) × (BYTES ≡ 2048 * record_bytes edition) }
{
    let mut session = Session::<BYTES> {
        edition,
        handler,
        buffer: [0u8; BYTES],
        rest: 0,
    };
    session.take_turns(input, rt);
}
