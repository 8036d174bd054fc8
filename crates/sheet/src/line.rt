// The line of a command, by its kind and its answer: at most 12 bytes.
ghost use Rattle.std.specs.Prelude.{◌≡◌};
ghost use Rattle.model.specs.Commands.{kind_of};
ghost use Rattle.model.specs.Refusals.{number};
ghost use Rattle.model.specs.Sheet.{refused_line};
ghost use Rattle.sheet_lines.specs.Append.{Room};
ghost use Rattle.sheet.specs.Line.{ShortAnswer, LineAppended, answer_line};
ghost use Rattle.sheet_lines.specs.Lengths.{line_most};

use model::answer::Report;
use model::command::Command;
use model::refusal::Refusal;

// The number of the command's kind.
fn kind_of(command: Command) -> u8
    ensures { result ≡ kind_of command }
{
    match command {
        Command::Board => 1,
        Command::Head(_) => 2,
        Command::Row(_) => 3,
        Command::Post => 4,
        Command::Retract(_) => 5,
        Command::Gap(_) => 6,
        Command::Keep(_) => 7,
        Command::Back(_) => 8,
        Command::Cancel(_) => 9,
    }
}

// The line of what is refused.
pub fn refusal_line(out: &mut [u8], place: usize, kind: u8, refusal: Refusal) -> usize
    requires { Room place line_most out.old }
    ensures { LineAppended (refused_line kind (number refusal)) place out.old out.new result }
{
    sheet_lines::refused_line(out, place, usize::from(kind), usize::from(refusal.number()))
}

// The line of a command that was answered so.
pub fn answer_line(
    out: &mut [u8],
    place: usize,
    command: Command,
    answer: Result<Report, Refusal>,
) -> usize
    requires room { Room place line_most out.old }
    requires short_answer { ShortAnswer answer }
    ensures { LineAppended (answer_line command answer) place out.old out.new result }
{
    let kind = kind_of(command);
    match answer {
        Ok(report) => {
            sheet_lines::accepted_line(
                out,
                place,
                usize::from(kind),
                report.struck,
                report.reopened,
            )
        }
        Err(refusal) => refusal_line(out, place, kind, refusal),
    }
}
