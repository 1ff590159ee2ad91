// Step 5 of a tick: outputs from the state now reached. Masks have a bit for each class or line, 0 lowest.
ghost use Rattle.std.specs.Prelude.{◌≡◌};
ghost use Rattle.laws.specs.OutputMasks.{interrupts_on, lines_on};

use class::lines::lines;
use class_rules::Class;

// Interrupts are INTR_STATE and INTR_ENABLE, bit by bit.
pub fn interrupts_on(state: u16, enable: u16) -> u8
    ensures { result ≡ interrupts_on state enable }
{
    ((state & enable) % 16) as u8
}

// A line is on if any class drives it.
pub fn lines_on(classes: [Class; 4]) -> u8
    ensures { result ≡ lines_on classes }
{
    classes.iter().fold(0, |on, class| on | lines(*class))
}
