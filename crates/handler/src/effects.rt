// "One tick", step 1: an access without effects on the later steps.
ghost use Rattle.std.specs.Prelude.{◌≡◌, true};
ghost use Rattle.handler.specs.Finished.{no_effects};

use rules::Effects;

// It clears no class, raises nothing, and does not start the ping timer.
pub fn are_none(e: Effects) -> bool
    ensures { result ≡ true → e ≡ no_effects }
{
    ((e.clears == 0) & (e.raises == 0)) & !e.begins
}
