// The four classes over calm ticks.
ghost use Rattle.std.specs.Prelude.{◌≡◌, ◌<◌, ◌≤◌};
ghost use Rattle.bits.specs.Bits.{bit, bits_of};
ghost use Rattle.class_rules.specs.Step.{class_event};
ghost use Rattle.calm_laws.specs.Stand.{jumped};
ghost use Rattle.calm_laws.specs.Four.{class_of, met, four_stands, four_jump, four_step, FourFit};

use crate::jump::jumped;
use crate::stand::stands;
use class::step::{event, step};
use class_rules::{Class, Signals};
use masks::{is_set, num};

// What the classes meet in each of the ticks: masks with a bit for each class, class 0 lowest.
#[derive(Clone, Copy)]
pub struct Met {
    pub events: u8,
    pub interrupts: u16,
}

// Kept below: each k written out. As `from_fn` the result was not shown, and as `[0, 1, 2, 3].map(..)` not that each k is below 4.
impl Met {
    // What class k meets: no access, so no clear.
    #[tactic(auto, unfolding(calm_laws::specs::Four::met))]
    fn signals(self, k: usize) -> Signals
        requires { k < 4 }
        ensures { result ≡ met self.events self.interrupts k }
    {
        Signals {
            event: is_set(u16::from(self.events), k as u32),
            interrupt: is_set(self.interrupts, k as u32),
            clear: false,
        }
    }

    // The ticks in which no class moves.
    #[tactic(auto, using(crate::proofs::Standing::min_least), unfolding(calm_laws::specs::Four::four_stands))]
    pub fn stands(self, classes: &[Class; 4]) -> u64
        ensures { result ≡ four_stands (met self.events self.interrupts) classes.now }
    {
        let class = |k: usize| stands(self.signals(k), classes[k]);
        class(0).min(class(1).min(class(2).min(class(3))))
    }

    // The classes after n ticks in which none moves.
    #[tactic(auto, unfolding(calm_laws::specs::Four::four_jump, bits::specs::Index::each_from))]
    pub fn jumped(self, classes: &[Class; 4], n: u64) -> [Class; 4]
        requires { FourFit classes.now × (n ≤ four_stands (met self.events self.interrupts) classes.now) }
        ensures { result ≡ four_jump (met self.events self.interrupts) n classes.now }
    {
        let class = |k: usize| -> Class
            requires { (k < 4) × FourFit classes.now × (n ≤ four_stands (met self.events self.interrupts) classes.now) }
            ensures { result ≡ jumped (met self.events self.interrupts k) n (class_of classes.entry.now k) }
        { jumped(self.signals(k), n, classes[k]) };
        [class(0), class(1), class(2), class(3)]
    }

    // The classes after one plain tick.
    #[tactic(auto, unfolding(calm_laws::specs::Four::four_step, bits::specs::Index::each_from))]
    pub fn stepped(self, classes: &[Class; 4]) -> [Class; 4]
        ensures { result ≡ four_step (met self.events self.interrupts) classes.now }
    {
        let class = |k: usize| step(self.signals(k), classes[k]);
        [class(0), class(1), class(2), class(3)]
    }
}

// The classes that have an event, as a mask, from the mask of what is assigned.
#[tactic(auto, unfolding(bits::specs::Bits::bits_of))]
pub(crate) fn events_of(classes: &[Class; 4], assigned: u8) -> u8
    ensures { result ≡ bits_of 4 (λ k. class_event (bit assigned k) (class_of classes.now k)) }
{
    let bit = |k: usize| num(event(is_set(u16::from(assigned), k as u32), classes[k]));
    bit(0) + 2 * (bit(1) + 2 * (bit(2) + 2 * bit(3)))
}
