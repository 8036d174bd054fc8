// The draft of a gap rule: its two calls, with the pairs that fit as rows.
ghost use Rattle.command_gap.specs.Draft.{DraftOfGap};

use crate::pairs::{Pairs, Test, list_pairs};
use layout::value::{Draft, RuleData};
use model::command::GapRule;

#[derive(Clone, Copy)]
pub struct GapDraft {
    pub draft: Draft,
    // how many pairs fit; where it is over 64 the draft is not the form's, and refusal 25 is its caller's
    pub count: usize,
}

// Calls are taken modulo 32, so that any byte names one.
pub fn draft_of(counts: &[u8; 32], f: GapRule) -> GapDraft
    ensures { DraftOfGap counts.now f result }
{
    let test = Test {
        form: f.form,
        gap: f.gap,
        seconds: counts[usize::from(f.second % 32)],
    };
    let Pairs { rows, count } = list_pairs(test, counts[usize::from(f.first % 32)]);
    GapDraft {
        draft: Draft {
            number: f.number,
            rule: RuleData {
                arity: 2,
                scope: [f.first, f.second, 255, 255],
                // of any count, since the caller looks at it
                length: (count % 256) as u8,
                rows,
            },
        },
        count,
    }
}
