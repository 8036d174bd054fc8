// The refusals of both kinds: the first that holds.
ghost use Rattle.std.specs.Prelude.{◌≡◌, not, eqb};
ghost use Rattle.model.specs.Refusals.{first_of, number_of};
ghost use Rattle.command_mark.specs.Checks.{keep_checks, back_checks, kept_byte};

use layout::names::{NAME, NAMES};
use model::refusal::Refusal;

pub fn check_keep(counts: &[u8; 32], name: u8) -> Result<(), Refusal>
    ensures { number_of result ≡ first_of (keep_checks counts.now name) }
{
    Refusal::NoBoard.when(counts[0] == 0)?;
    Refusal::BadName.when(1 < name)
}

// Whether something is kept under a name. Every name but 0 is taken for 1.
fn kept_under(names: &[u8; NAMES], name: u8) -> bool
    ensures { result ≡ not (eqb (kept_byte names.now name) 0) }
{
    let kept = if name == 0 { names[0] } else { names[NAME] };
    kept != 0
}

pub fn check_back(counts: &[u8; 32], names: &[u8; NAMES], name: u8) -> Result<(), Refusal>
    ensures { number_of result ≡ first_of (back_checks counts.now names.now name) }
{
    check_keep(counts, name)?;
    Refusal::NothingKept.when(!kept_under(names, name))
}
