// The items of a line, one after another.
ghost use Rattle.std.specs.Prelude.{◌≡◌, ◌≤◌, ℕ, List, length};
ghost use Rattle.parts.specs.Fixed.{elements};
ghost use Rattle.sheet.specs.declared.symbol.Stop.{Stop};
ghost use Rattle.sheet.specs.Reading.{Read, Parses, ParsesAs, number};
ghost use Rattle.sheets.specs.Grammar.{items, pair_within, next_stop};

use crate::lines::Pair;
use parts::fixed::FixedList;
use sheet::cursor::Cursor;
use sheet::fault::SheetFault;
use sheet::symbol::{Limits, Stop};

// What stands on a line: each item is read within limits, up to the stop after it, which is not passed.
pub(crate) trait Item: Copy + Default {
    type Within: Copy;

    // what the bytes from a place on mean as an item
    ghost item: { Self.Within → Stop → ℕ → List ℕ → Read Self };

    fn read(cursor: &mut Cursor, within: Self::Within, stop: Stop) -> Result<Self, SheetFault>
        ensures { Parses (item within stop) cursor.old result cursor.new };
}

impl Item for u32 {
    type Within = Limits;

    ghost item = { number };

    fn read(cursor: &mut Cursor, within: Limits, stop: Stop) -> Result<u32, SheetFault> {
        cursor.number(within, stop)
    }
}

impl Item for Pair<u32> {
    type Within = Pair<Limits>;

    ghost item = { pair_within };

    fn read(
        cursor: &mut Cursor,
        within: Pair<Limits>,
        stop: Stop,
    ) -> Result<Pair<u32>, SheetFault> {
        let left = cursor.number(within.left, Stop::Slash)?;
        cursor.expect('/')?;
        let right = cursor.number(within.right, stop)?;
        Ok(Pair { left, right })
    }
}

// What stands after an item, when so many are still to come on its line.
fn stop_before(left: usize) -> Stop
    ensures { result ≡ next_stop left }
{
    if left == 0 {
        Stop::LineFeed
    } else {
        Stop::Space
    }
}

// One item for each of the limits, and the line feed.
pub(crate) fn read_items<T: Item, const N: usize>(
    cursor: &mut Cursor,
    limits: &[T::Within],
) -> Result<FixedList<T, N>, SheetFault>
    requires { length limits.now ≤ N }
    ensures { ParsesAs elements (items T.item limits.now) cursor.old result cursor.new }
{
    let mut list = FixedList::filled(T::default());
    // how many are still to come is the length less 1 and the place: counts that fall from it, zipped in, are no plainer
    for (i, within) in limits.iter().enumerate() {
        cursor.expect(' ')?;
        let item = T::read(cursor, *within, stop_before(limits.len() - 1 - i))?;
        list.push(item).unwrap();
    }
    cursor.expect('\n')?;
    Ok(list)
}
