// The calls of a plan.
ghost use Rattle.std.specs.Prelude.{◌≡◌, ◌<◌};
ghost use Rattle.plan_model.specs.Plans.{slots_on_in};
ghost use Rattle.plan_fit.specs.Parts.{call_parts};

use layout::places::is_cancelled;

// How many slots call c has in a plan: none where it is cancelled or not on the board.
pub fn slots_for(counts: &[u8; 32], slots: &[u8], c: usize) -> u8
    requires { c < 32 }
    ensures { result ≡ slots_on_in (call_parts counts.now slots.now) c }
{
    if is_cancelled(slots, c as u8) {
        0
    } else {
        counts[c]
    }
}
