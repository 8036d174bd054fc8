// Visiting: slots join those that are visited, which are a mask of 32 bits for each call.
ghost use Rattle.std.specs.Prelude.{◌<◌};
ghost use Rattle.filter_relax.specs.Spread.{CallMask, Adds};

// Visits the slots of call c in the mask. The calls that have one of them, beside those before.
pub fn visit_call(visited: &mut [u32; 32], c: usize, mask: u32, calls: u32) -> u32
    requires { c < 32 }
    ensures { Adds (CallMask c mask) visited.old visited.new calls result }
{
    if mask == 0 {
        return calls;
    }
    visited[c] |= mask;
    calls | (1 << c)
}
