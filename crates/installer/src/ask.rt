// One access a tick with all wires at (0,1), receive pairs too, and word 0, and a register written and read back.
// Each part of a boot changes the state that it is lent, and says where it stopped, if it did.
ghost use Rattle.std.specs.Prelude.{◌≡◌};
ghost use Rattle.policy.specs.Install.{rest, under, asked, once, twice, install};
ghost use Rattle.installer.specs.Results.{progress_of, twice_each};

use handler::tick::tick;
use rules::{Access, Handler, Input, Receive, Sample, Wires};

// Where a boot stopped: the register, and the answer that was not wanted.
#[derive(Clone, Copy)]
pub struct Stop {
    pub register: u16,
    pub answer: i64,
}

fn rest(x: Access) -> Input
    ensures { result ≡ rest x }
{
    Input {
        access: x,
        sample: Sample {
            alerts: Wires {
                pos: [0; 4],
                neg: [0xFFFF_FFFF_FFFF_FFFF; 4],
            },
            word: 0,
            receive: Receive::Pairs(0, 15),
        },
    }
}

// One tick: with the answer v it goes on, with any other it stops at register r.
fn ask(h: &mut Handler, r: u16, x: Access, v: u32) -> Result<(), Stop>
    ensures { progress_of h.new result ≡ asked h.old (record { register = r; access = x; wanted = v }) }
{
    let t = tick(*h, rest(x));
    *h = t.handler;
    if t.answer == v as i64 {
        Ok(())
    } else {
        Err(Stop {
            register: r,
            answer: t.answer,
        })
    }
}

// A register that takes one write: v is written and read back.
pub fn put(h: &mut Handler, r: u16, v: u32) -> Result<(), Stop>
    ensures { progress_of h.new result ≡ install (under h.old) (once r v) }
{
    ask(h, r, Access::Write(r, v), 0)?;
    ask(h, r, Access::Read(r), v)
}

// A shadowed one: v is written twice and read back.
fn put_twice(h: &mut Handler, r: u16, v: u32) -> Result<(), Stop>
    ensures { progress_of h.new result ≡ install (under h.old) (twice r v) }
{
    ask(h, r, Access::Write(r, v), 0)?;
    put(h, r, v)
}

// Shadowed registers, each with its value, in order.
pub fn put_all(h: &mut Handler, settings: &[(u16, u32)]) -> Result<(), Stop>
    ensures { progress_of h.new result ≡ install (under h.old) (twice_each settings.now) }
{
    for (r, v) in settings {
        put_twice(h, *r, *v)?;
    }
    Ok(())
}
