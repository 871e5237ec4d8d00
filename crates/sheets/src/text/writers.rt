// What is added to a text.
ghost use Rattle.std.specs.Prelude.{◌≡◌, ℕ, ◌+◌, ◌<◌, ◌≤◌, true, [], ◌∷◌, ◌++◌, length, slice_index_or};
ghost use Rattle.std.specs.Fmt.{decimal};
ghost use Rattle.sheets.specs.Texts.{text_of, pair_shown, pair_of, letter_of, line_text, count_text, plan_text, writable, no_part};

use crate::lines::Pair;
use crate::text::{Line, Text};
use parts::fixed::FixedList;
use schedule::Part;

impl Line {
    // The letter that the line starts with.
    fn letter(self) -> u8
        ensures { result ≡ letter_of self }
    {
        match self {
            Line::Places => b'P',
            Line::Amounts => b'A',
        }
    }

    // What stands on the line for a part.
    fn pair(self, part: &Part) -> Pair<u32>
        ensures { result ≡ pair_of self part.now }
    {
        match self {
            Line::Places => Pair {
                left: u32::from(part.task),
                right: u32::from(part.processor),
            },
            Line::Amounts => Pair {
                left: part.cost,
                right: part.window,
            },
        }
    }
}

impl Text {
    pub(crate) fn empty() -> Text
        ensures { text_of result ≡ [] }
    {
        Text {
            written: FixedList::filled(0),
        }
    }

    pub(crate) fn as_slice(&self) -> &[u8]
        ensures { result.now ≡ text_of self.now }
    {
        self.written.as_slice()
    }

    // Adds a byte.
    fn push(&mut self, byte: u8)
        requires { length (text_of self.old) < 1225 }
        ensures { text_of self.new ≡ text_of self.old ++ (byte ∷ []) }
    {
        self.written.push(byte).unwrap();
    }

    // Adds a number, its digits by hand: no contract says that `write!` through fmt::Write succeeds where there is room, and the
    // kit's printer of integers would be one more crate to trust.
    fn push_number(&mut self, value: u32)
        requires { length (text_of self.old) + length (decimal value) ≤ 1225 }
        ensures { text_of self.new ≡ text_of self.old ++ decimal value }
    {
        if value >= 10 {
            self.push_number(value / 10);
        }
        self.push(b'0' + (value % 10) as u8);
    }

    // Adds a space and two numbers with a slash between them.
    fn push_pair(&mut self, pair: Pair<u32>)
        requires six { (pair.left < 1000000) × (pair.right < 1000000) }
        requires room { length (text_of self.old) + length (32 ∷ pair_shown pair) ≤ 1225 }
        ensures { text_of self.new ≡ text_of self.old ++ (32 ∷ pair_shown pair) }
    {
        self.push(b' ');
        self.push_number(pair.left);
        self.push(b'/');
        self.push_number(pair.right);
    }

    // Adds the line with the count of the parts.
    fn push_count(&mut self, count: usize)
        requires few { count ≤ 64 }
        requires room { length (text_of self.old) + length (count_text count) ≤ 1225 }
        ensures { text_of self.new ≡ text_of self.old ++ count_text count }
    {
        self.push(b'K');
        self.push(b' ');
        self.push_number(count as u32);
        self.push(b'\n');
    }

    // Adds a line with a pair for each part.
    fn push_line(&mut self, line: Line, parts: &[Part])
        requires each { (i : ℕ) → i < length parts.now → writable (slice_index_or parts.now i no_part) ≡ true }
        requires room { length (text_of self.old) + length (line_text line parts.now) ≤ 1225 }
        ensures { text_of self.new ≡ text_of self.old ++ line_text line parts.now }
    {
        self.push(line.letter());
        for part in parts {
            self.push_pair(line.pair(part));
        }
        self.push(b'\n');
    }

    // The plan sheet of the parts.
    pub(crate) fn of_plan(parts: &[Part]) -> Text
        requires each { (i : ℕ) → i < length parts.now → writable (slice_index_or parts.now i no_part) ≡ true }
        requires few { length parts.now ≤ 64 }
        ensures { text_of result ≡ plan_text parts.now }
    {
        let mut text = Text::empty();
        text.push_count(parts.len());
        text.push_line(Line::Places, parts);
        text.push_line(Line::Amounts, parts);
        text
    }
}
