// Where bytes lie. Numbers are taken modulo the sizes and lengths are capped, so that any bytes are safe.
ghost use Rattle.std.specs.Prelude.{◌≡◌, ◌%◌, min, get_or};
ghost use Rattle.layout.specs.Places.{cancelled?};

// x, but at most n.
pub fn cap(x: u8, n: usize) -> usize
    ensures { result ≡ min x n }
{
    usize::from(x).min(n)
}

// The rule that a number names: modulo 64, so that any byte names one. Altered memory may hold a draft whose number is over 63.
pub fn rule_index(number: u8) -> usize
    ensures { result ≡ number % 64 }
{
    usize::from(number % 64)
}

// The byte at a place; 0 past the end.
pub fn byte_at(bytes: &[u8], at: usize) -> u8
    ensures { result ≡ get_or bytes.now at 0 }
{
    bytes.get(at).copied().unwrap_or(0)
}

// The byte of each slot of a cancelled call, in the memory.
pub const CANCELLED: u8 = 253;

// Whether the call is cancelled: the byte of its first slot says so, and every call has a slot.
pub fn is_cancelled(slots: &[u8], call: u8) -> bool
    ensures { result ≡ cancelled? slots.now call }
{
    call < 32 && byte_at(slots, 32 * usize::from(call)) == CANCELLED
}
