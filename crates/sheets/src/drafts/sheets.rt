// The lines of whole sheets.
ghost use Rattle.std.specs.Prelude.{◌≡◌, ℕ, ◌<◌, ◌≤◌, length, slice_index_or};
ghost use Rattle.parts.specs.Parts.{parts_of, plan_of};
ghost use Rattle.sheet.specs.Reading.{ParsesAs};
ghost use Rattle.sheets.specs.Answers.{drafted, SheetOf};
ghost use Rattle.sheets.specs.Grammar.{lines_of_tasks, lines_of_plan, assembled};

use crate::TaskSheet;
use crate::drafts::TaskDraft;
use crate::lines::Pair;
use crate::lines::kinds::{number_line, pair_line};
use parts::lists::{PartList, Proposal};
use schedule::Part;
use sheet::cursor::Cursor;
use sheet::fault::SheetFault;
use tasks::fault::SetFault;
use tasks::set::TaskSet;

// The lines of a task sheet. A count is widened by `as`, here and below: there is no From into usize for a u32.
pub(crate) fn task_lines(cursor: &mut Cursor) -> Result<TaskDraft, SheetFault>
    ensures { ParsesAs drafted lines_of_tasks cursor.old result cursor.new }
{
    let counts = number_line(cursor, 'T', 0)?;
    let count = counts.as_slice()[0] as usize;
    let periods = number_line(cursor, 'P', count)?;
    let costs = number_line(cursor, 'C', count)?;
    Ok(TaskDraft {
        processors: counts.as_slice()[1] as usize,
        periods,
        costs,
    })
}

// The task sheet of a draft, where a task set can be made of it.
pub(crate) fn sheet_of(draft: &TaskDraft) -> Result<TaskSheet, SetFault>
    ensures { SheetOf (drafted draft.now) result }
{
    let set = TaskSet::new(draft.periods.as_slice(), draft.costs.as_slice())?;
    Ok(TaskSheet {
        set,
        processors: draft.processors,
    })
}

// The parts with these places and amounts.
fn assemble(places: &[Pair<u32>], amounts: &[Pair<u32>]) -> PartList
    requires { (length amounts.now ≡ length places.now) × ((length places.now ≤ 64) × (((i : ℕ) → i < length places.now → ((slice_index_or places.now i record { left = 0; right = 0 }).left < 256) × ((slice_index_or places.now i record { left = 0; right = 0 }).right < 256)))) }
    ensures { parts_of result ≡ assembled places.now amounts.now }
{
    let mut list = PartList::empty();
    // by `as`, which the clause proves right and which is plainer than a try_from that is unwrapped
    for (place, amounts) in places.iter().zip(amounts) {
        list.push(Part {
            task: place.left as u8,
            processor: place.right as u8,
            cost: amounts.left,
            window: amounts.right,
        })
        .unwrap();
    }
    list
}

// The lines of a plan sheet.
pub(crate) fn plan_lines(cursor: &mut Cursor) -> Result<PartList, SheetFault>
    ensures { ParsesAs parts_of lines_of_plan cursor.old result cursor.new }
{
    let counts = number_line(cursor, 'K', 0)?;
    let count = counts.as_slice()[0] as usize;
    let places = pair_line(cursor, 'P', count)?;
    let amounts = pair_line(cursor, 'A', count)?;
    Ok(assemble(places.as_slice(), amounts.as_slice()))
}

// The plan of these parts, of which there are some.
pub(crate) fn propose(list: PartList) -> Proposal
    requires { (1 ≤ length (parts_of list)) × (length (parts_of list) ≤ 64) }
    ensures { plan_of result ≡ parts_of list }
{
    Proposal::new(list).unwrap()
}
