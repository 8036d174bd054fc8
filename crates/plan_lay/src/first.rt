// The search from the tables to the answer.
ghost use Rattle.std.specs.Prelude.{◌≡◌, ◌+◌, ◌-◌, ◌≤◌, min};
ghost use Rattle.plan_fit.specs.Parts.{rule_parts};
ghost use Rattle.plan_search.specs.First.{no_plan, cut, ended_answer, first_shown};
ghost use Rattle.plan_lay.specs.Lay.{table_task, calls_from};

use crate::lay::{Ending, Search, lay_calls};
use layout::value::{Heads, ROWS, SLOTS};
use plan_search::answer::FirstPlan;
use plan_tables::due::due_rules;
use plan_tables::lookup::{Tables, WORDS, call_slots, open_masks, rule_columns, write_words};

// The trials that were made: the ceiling and one, less what is left of these; the ceiling where nothing is.
fn trials_made(ceiling: u32, left: u64) -> u32
    requires { left ≤ ceiling + 1 }
    ensures { result ≡ min (ceiling + 1 - left) ceiling }
{
    ceiling - left.saturating_sub(1) as u32
}

// The search from the first call on, with no call laid, and what it ends with.
fn lay_all(tables: &Tables, ceiling: u32) -> FirstPlan
    ensures { result
        ≡ ended_answer ceiling (cut ceiling (calls_from (table_task tables.now) 0 no_plan)) }
{
    let mut search = Search {
        plan: [255; 32],
        left: u64::from(ceiling) + 1,
    };
    let ending = lay_calls(tables, &mut search, 0);
    let trials = trials_made(ceiling, search.left);
    match ending {
        Ending::Found => FirstPlan::Found(trials, search.plan),
        Ending::Nothing => FirstPlan::Nothing(trials),
        Ending::Stopped => FirstPlan::Stopped(ceiling),
    }
}

// The same off the value and the bytes.
pub fn lay_plan(heads: &Heads, rows: &[u8; ROWS], slots: &[u8; SLOTS], ceiling: u32) -> FirstPlan
    ensures { result ≡ first_shown (rule_parts heads.now rows.now slots.now) ceiling }
{
    let columns = rule_columns(heads, slots);
    let held = call_slots(&heads.counts, slots);
    let mut tables = Tables {
        words: [0; WORDS],
        lengths: heads.lengths,
        columns,
        due: due_rules(&held, &columns),
        opened: open_masks(slots),
        held,
    };
    write_words(rows, &heads.lengths, &columns, &mut tables.words);
    lay_all(&tables, ceiling)
}
