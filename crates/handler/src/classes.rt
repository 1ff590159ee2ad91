// Steps 3 and 4 of the four classes. Masks have a bit for each class, class 0 lowest.
ghost use Rattle.std.specs.Prelude.{◌≡◌, ◌<◌, ◌≤◌};
ghost use Rattle.bits.specs.Bits.{num};
ghost use Rattle.class_rules.specs.Step.{class_step};
ghost use Rattle.handler.specs.Classes.{interrupt_by, met_by, classes_by, interrupts_by};

use class::step::{event, step};
use class_rules::{Class, Signals};
use masks::is_set;
use std::array::from_fn;

// The interrupt bit of class k now: an event sets it, after any clearing in step 1.
fn interrupt(c: Class, k: u32, state: u16, assigned: u8) -> bool
    requires { k < 4 }
    ensures { result ≡ interrupt_by c k state assigned }
{
    is_set(state, k) | event(is_set(assigned as u16, k), c)
}

// What class k meets in this tick.
fn meet(c: Class, k: u32, state: u16, assigned: u8, clears: u8) -> Signals
    requires { k < 4 }
    ensures { result ≡ met_by c k state assigned clears }
{
    Signals {
        event: event(is_set(assigned as u16, k), c),
        interrupt: interrupt(c, k, state, assigned),
        clear: is_set(clears as u16, k),
    }
}

// Class k after steps 3 and 4.
fn class_after(c: Class, k: u32, state: u16, assigned: u8, clears: u8) -> Class
    requires { k < 4 }
    ensures { result ≡ class_step (met_by c k state assigned clears) c }
{
    step(meet(c, k, state, assigned, clears), c)
}

// The four classes after steps 3 and 4.
#[tactic(auto, unfolding(bits::specs::Index::each_from, crate::specs::Classes::classes_by))]
pub fn classes_after(classes: [Class; 4], state: u16, assigned: u8, clears: u8) -> [Class; 4]
    ensures { result ≡ classes_by classes state assigned clears }
{
    from_fn(|k| class_after(classes[k], k as u32, state, assigned, clears))
}

// The interrupt bit of class k now, as a number.
fn interrupt_bit(c: Class, k: u32, state: u16, assigned: u8) -> u16
    requires { k < 4 }
    ensures { (result ≡ num (interrupt_by c k state assigned)) × (result ≤ 1) }
{
    u16::from(interrupt(c, k, state, assigned))
}

// INTR_STATE after step 3. Class by class: tried as a fold over 0..4, whose closure's k has no bound in the proof, so not which class it reads.
pub fn interrupts_after(classes: [Class; 4], state: u16, assigned: u8) -> u16
    ensures { result ≡ interrupts_by classes state assigned }
{
    let a = interrupt_bit(classes[0], 0, state, assigned);
    let b = interrupt_bit(classes[1], 1, state, assigned);
    let c = interrupt_bit(classes[2], 2, state, assigned);
    let d = interrupt_bit(classes[3], 3, state, assigned);
    a + 2 * (b + 2 * (c + 2 * d))
}
