// Reading sheets: a value, or the first fault.
ghost use Rattle.std.specs.Prelude.{◌≡◌, ◌≤◌, length, IfOk};
ghost use Rattle.std.specs.Fn.{FnOnceReturnsAtMut};
ghost use Rattle.std.specs.Result.{result_map_both};
ghost use Rattle.parts.specs.Parts.{plan_of, parts_of};
ghost use Rattle.sheets.specs.Answers.{drafted, ReadTasks, ReadParts, ReadBoth, ReadsWhole};
ghost use Rattle.sheets.specs.Grammar.{task_sheet, plan_sheet, sheet_pair};
ghost use Rattle.sheets.specs.Refusals.{refusal_in, task_refusal, plan_refusal, both_refusal};
ghost use Rattle.sheet.specs.Faults as Sheets;
ghost use Rattle.tasks.specs.Faults as Sets;
ghost use Rattle.parts.specs.Faults as Plans;
ghost use Rattle.sheets.specs.Laws.{WrittenBack, SheetsAreTexts, TaskSheetsAreTexts, BothAreTexts};

use crate::TaskSheet;
use crate::drafts::sheets::{plan_lines, propose, sheet_of, task_lines};
use parts::fault::PlanFault;
use parts::lists::{PartList, Proposal};
use sheet::cursor::Cursor;
use sheet::cursor::reads::length_of;
use sheet::fault::SheetFault;
use tasks::fault::SetFault;

// A whole input that is read by `lines`, up to its end.
fn read_whole<'a, T: Drop, F: FnOnce(&mut Cursor<'a>) -> Result<T, SheetFault>>(
    bytes: &'a [u8],
    lines: F,
) -> Result<T, SheetFault>
    requires { F.IsAlwaysCallable lines }
    ensures { ReadsWhole (FnOnceReturnsAtMut F.FnOnce lines) bytes.now result }
{
    length_of(bytes)?;
    let mut cursor = Cursor::new(bytes);
    let value = lines(&mut cursor)?;
    cursor.end()?;
    Ok(value)
}

// A task sheet: its bytes are read to the end before a task set is made of them.
pub fn read_task_sheet(bytes: &[u8]) -> Result<TaskSheet, SetFault>
    ensures value { ReadTasks (task_sheet bytes.now) result }
    ensures refusal { refusal_in Sets.shown result ≡ task_refusal bytes.now }
    ensures texts { TaskSheetsAreTexts }
{
    let draft = read_whole(bytes, task_lines)?;
    sheet_of(&draft)
}

// A plan sheet. What is read would be written back byte for byte.
pub fn read_plan_sheet(bytes: &[u8]) -> Result<Proposal, SheetFault>
    ensures value { result_map_both plan_of (λ e. e) result ≡ plan_sheet bytes.now }
    ensures refusal { refusal_in Sheets.shown result ≡ plan_refusal bytes.now }
    ensures written_back { IfOk result (λ p. WrittenBack (plan_of p) bytes.now) }
    ensures texts { SheetsAreTexts }
{
    let list = read_whole(bytes, plan_lines)?;
    Ok(propose(list))
}

// A task sheet with a plan sheet right after it: the bytes of both are read before a task set is made.
fn both_sheets(bytes: &[u8]) -> Result<(TaskSheet, PartList), SetFault>
    ensures { ReadParts (sheet_pair bytes.now) result }
{
    let (draft, list) = read_whole(
        bytes,
        |cursor| Ok((task_lines(cursor)?, plan_lines(cursor)?)),
    )?;
    Ok((sheet_of(&draft)?, list))
}

// A task sheet with a plan sheet right after it; a fault of the bytes goes before one of the task set.
pub fn read_both(bytes: &[u8]) -> Result<(TaskSheet, Proposal), PlanFault>
    ensures value { ReadBoth (sheet_pair bytes.now) result }
    ensures refusal { refusal_in Plans.shown result ≡ both_refusal bytes.now }
    ensures texts { BothAreTexts }
{
    let (sheet, list) = both_sheets(bytes)?;
    Ok((sheet, propose(list)))
}
