// Which array reader the line of a letter has. The two functions stay apart, each with a match of its own: the project's scope has
// the character, as a case of a match, select a line's kind and its reader, and P is a line of numbers on one sheet and of pairs on
// the other.
ghost use Rattle.std.specs.Prelude.{◌≤◌};
ghost use Rattle.parts.specs.Fixed.{elements};
ghost use Rattle.sheet.specs.Reading.{ParsesAs};
ghost use Rattle.sheets.specs.Grammar.{line_of_numbers, line_of_pairs};

use crate::lines::Pair;
use crate::lines::items::read_items;
use parts::fixed::FixedList;
use sheet::cursor::Cursor;
use sheet::fault::SheetFault;
use sheet::symbol::Limits;

// The counts of tasks, processors and parts, periods, costs and windows, and the place and the amounts of a part.
const TASKS: Limits = Limits { least: 1, most: 32 };

const PROCESSORS: Limits = Limits { least: 1, most: 8 };

const PARTS: Limits = Limits { least: 1, most: 64 };

const TICKS: Limits = Limits {
    least: 1,
    most: 100_000,
};

const PLACE: Pair<Limits> = Pair {
    left: Limits { least: 0, most: 31 },
    right: Limits { least: 0, most: 7 },
};

const AMOUNTS: Pair<Limits> = Pair {
    left: TICKS,
    right: TICKS,
};

// The line of numbers that starts with the letter, on a sheet of `count` tasks.
pub(crate) fn number_line(
    cursor: &mut Cursor,
    letter: char,
    count: usize,
) -> Result<FixedList<u32, 32>, SheetFault>
    requires { count ≤ 32 }
    ensures { ParsesAs elements (line_of_numbers letter count) cursor.old result cursor.new }
{
    cursor.expect(letter)?;
    match letter {
        'T' => read_items(cursor, &[TASKS, PROCESSORS]),
        'K' => read_items(cursor, &[PARTS]),
        'P' | 'C' => read_items(cursor, &[TICKS; 32][0..count]),
        _ => Err(cursor.misspelt()),
    }
}

// The line of pairs that starts with the letter, on a sheet of `count` parts.
pub(crate) fn pair_line(
    cursor: &mut Cursor,
    letter: char,
    count: usize,
) -> Result<FixedList<Pair<u32>, 64>, SheetFault>
    requires { count ≤ 64 }
    ensures { ParsesAs elements (line_of_pairs letter count) cursor.old result cursor.new }
{
    cursor.expect(letter)?;
    match letter {
        'P' => read_items(cursor, &[PLACE; 64][0..count]),
        'A' => read_items(cursor, &[AMOUNTS; 64][0..count]),
        _ => Err(cursor.misspelt()),
    }
}
