// A step over bits of any number: where it leads, or what the bytes are then.
ghost use Rattle.std.specs.Prelude.{◌≡◌, ◌≤◌};
ghost use Rattle.dump_reader.specs.Steps.{step_by};

use dump_rules::Unread;

// Over w of so many bits from bit `at` on, where what is there of them is fine.
pub fn step(bits: usize, at: usize, w: usize, fine: bool) -> Result<usize, Unread>
    requires { at ≤ bits }
    ensures { result ≡ step_by bits at w fine }
{
    if !fine {
        Err(Unread::NoDump)
    } else if w > bits - at {
        Err(Unread::CutDump)
    } else {
        Ok(at + w)
    }
}
