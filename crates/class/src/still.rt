// A class that a tick without an event and without a clear leaves as it is.
ghost use Rattle.std.specs.Prelude.{◌≡◌};
ghost use Rattle.class.specs.Still.{still};

use crate::moves::due;
use class_rules::{Class, Signals};

// Terminal, or Idle and not due, its interrupt bit being 1 or not.
pub fn is_still(c: Class, interrupt: bool) -> bool
    ensures { result ≡ still c interrupt }
{
    let met = Signals {
        event: false,
        interrupt,
        clear: false,
    };
    (c.state == 3) | ((c.state == 0) & !due(met, c))
}
