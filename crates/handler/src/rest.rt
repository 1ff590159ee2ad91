// Classes that a tick without events leaves as they are: each is Terminal, or Idle and not due.
ghost use Rattle.std.specs.Prelude.{◌≡◌, length};
ghost use Rattle.rules.specs.State.{class_count};
ghost use Rattle.handler.specs.RestTick.{all_still};

use class::still::is_still;
use class_rules::Class;
use masks::is_set;

// Each of the four classes stays as it is. Class by class: tried as a fold over 0..4, whose closure's k has no bound in the proof, so not which class it reads.
pub fn are_still(classes: [Class; 4], state: u16) -> bool
    ensures { (result ≡ all_still classes state) × (length classes ≡ class_count) }
{
    let a = is_still(classes[0], is_set(state, 0));
    let b = is_still(classes[1], is_set(state, 1));
    let c = is_still(classes[2], is_set(state, 2));
    let d = is_still(classes[3], is_set(state, 3));
    ((a & b) & c) & d
}
