// What a state shows, by a pen.
ghost use Rattle.std.specs.Prelude.{◌≡◌, map, ◌+◌, ◌-◌, ◌*◌, ◌≤◌, length};
ghost use Rattle.rules.specs.Map.{decode};
ghost use Rattle.rules.specs.Stages.{stage, is_open};
ghost use Rattle.dump_rules.specs.Shown.{picks, limit};
ghost use Rattle.dump_map.specs.Kinds.{has_kind};
ghost use Rattle.dump_writer.specs.Fields.{flag_of};

use crate::put::Pen;
use class_rules::Class;
use dump_map::Kind;
use dump_rules::REGISTERS;
use map::number::register_at;
use register_file::read::value_in;
use register_file::stage::stage_in;
use rules::{Handler, Register};

// What a dump shows of a cause or a lock: 1 for locked.
fn flag_of(kind: Kind, h: &Handler, q: Register) -> u32
    ensures { result ≡ flag_of kind h.now q }
{
    let v = value_in(h, q);
    if kind == Kind::Lock {
        u32::from(v == 0)
    } else {
        v
    }
}

// How many stages are open. Kept apart from `Kind::count`, whose contract names a kind: an open stage depends on the state too.
#[inline(never)]
pub(crate) fn count_open(h: &Handler) -> usize
    ensures { (result ≡ length (picks (λ r. is_open h.now.stages (decode h.now.n r)) 0 limit)) × (result ≤ limit) }
{
    let mut m = 0;
    for r in 0..REGISTERS {
        m += usize::from(stage_in(&h.stages, register_at(h.n, r as u16)) != 0);
    }
    m
}

impl<'a> Pen<'a> {
    ghost use Rattle.formats.specs.BitList.{bit_list};
    ghost use Rattle.formats.specs.Format.{flat};
    ghost use Rattle.dump_rules.specs.Dump.{class_bits, stage_bits};
    ghost use Rattle.dump_writer.specs.Fields.{shown_class, shown_classes};
    ghost use Rattle.dump_writer.specs.Puts.{Puts};

    // STATE, count and accumulator.
    fn class(&mut self, class: Class)
        requires { (self.old.at + 51 ≤ 8 * length self.old.out.now) × (self.old.at ≤ 900000) }
        ensures { Puts (class_bits (shown_class class)) self.old self.new }
    {
        self.number(3, class.state as u64);
        self.number(32, class.count as u64);
        self.number(16, class.accum as u64);
    }

    // The four classes.
    pub(crate) fn classes(&mut self, classes: [Class; 4])
        requires { (self.old.at + 204 ≤ 8 * length self.old.out.now) × (self.old.at ≤ 800000) }
        ensures { Puts (flat class_bits (shown_classes classes)) self.old self.new }
    {
        for k in 0..4 {
            self.class(classes[k]);
        }
    }

    // A bit for each register of a kind, numbers rising.
    pub(crate) fn flags(&mut self, kind: Kind, h: &Handler)
        requires { (self.old.at + length (picks (λ r. has_kind kind (decode h.now.n r)) 0 limit) ≤ 8 * length self.old.out.now) × (self.old.at ≤ 900000) }
        ensures { Puts (flat (bit_list 1) (map (λ r. flag_of kind h.now (decode h.now.n r)) (picks (λ r. has_kind kind (decode h.now.n r)) 0 limit))) self.old self.new }
    {
        for r in 0..REGISTERS {
            let q = register_at(h.n, r as u16);
            if kind.has(q) {
                self.number(1, flag_of(kind, h, q) as u64);
            }
        }
    }

    // The register and the value of each open stage, numbers rising.
    pub(crate) fn stages(&mut self, h: &Handler)
        requires { (self.old.at + 48 * length (picks (λ r. is_open h.now.stages (decode h.now.n r)) 0 limit) ≤ 8 * length self.old.out.now) × (self.old.at ≤ 900000) }
        ensures { Puts (flat stage_bits (map (λ r. record { register = r; value = stage h.now (decode h.now.n r) - 1 }) (picks (λ r. is_open h.now.stages (decode h.now.n r)) 0 limit))) self.old self.new }
    {
        for r in 0..REGISTERS {
            let s = stage_in(&h.stages, register_at(h.n, r as u16));
            if s != 0 {
                self.number(16, r as u64);
                self.number(32, s - 1);
            }
        }
    }
}
