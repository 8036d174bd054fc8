// The checks of a gap rule's five fields, over any slot counts.
ghost use Rattle.std.specs.Prelude.{◌≡◌};
ghost use Rattle.command_gap.specs.Checks.{field_checks};
ghost use Rattle.model.specs.Gaps.{bad_form?, bad_gap?};
ghost use Rattle.model.specs.Refusals.{first_of, number_of};

use command_draft::fields;
use model::command::GapRule;
use model::refusal::Refusal;

// Refusal 23: there is no such form.
fn bad_form(form: u8) -> bool
    ensures { result ≡ bad_form? form }
{
    !matches!(form, 1..=3)
}

// Refusal 24: no two slots have such a gap, or the form asks for equal slots and the gap is not 0.
fn bad_gap(form: u8, gap: u8) -> bool
    ensures { result ≡ bad_gap? form gap }
{
    31 < gap || form == 3 && gap != 0
}

// The first refusal that holds, in the order of SCOPE 4.3.
pub fn check_fields(counts: &[u8; 32], slots: &[u8], f: GapRule) -> Result<(), Refusal>
    ensures { number_of result ≡ first_of (field_checks counts.now slots.now f) }
{
    let calls = [f.first, f.second, 255, 255];
    Refusal::NoBoard.when(counts[0] == 0)?;
    Refusal::BadNumber.when(63 < f.number)?;
    Refusal::BadForm.when(bad_form(f.form))?;
    Refusal::CallOffBoard.when(fields::call_off_board(counts, &calls, 2))?;
    Refusal::CancelledCall.when(fields::call_cancelled(slots, &calls, 2))?;
    Refusal::CallTwice.when(fields::call_twice(&calls, 2))?;
    Refusal::BadGap.when(bad_gap(f.form, f.gap))
}
