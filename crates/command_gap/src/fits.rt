// Whether two slots fit a form.
ghost use Rattle.std.specs.Prelude.{◌≡◌, ◌+◌, leb};
ghost use Rattle.model.specs.Gaps.{fits?};

// Whether the slot a with the gap is at most b.
fn at_most(a: u8, gap: u8, b: u8) -> bool
    ensures { result ≡ leb (a + gap) b }
{
    u32::from(a) + u32::from(gap) <= u32::from(b)
}

pub fn fits(form: u8, gap: u8, a: u8, b: u8) -> bool
    ensures { result ≡ fits? form gap a b }
{
    match form {
        1 => at_most(a, gap, b),
        2 => at_most(a, gap, b) || at_most(b, gap, a),
        _ => a == b,
    }
}
