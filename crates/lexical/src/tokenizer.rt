// tokenizer.rs: what reading a byte does to a point. Moving a point hands the moved point back.
ghost use Rattle.std.specs.Prelude.{◌≡◌, ◌-◌, ◌<◌, length, drop};
ghost use Rattle.lexical.specs.Point.{tabReadings, tabRead, actionOf, actionAt, nextLine, nextByte, skipByte, nextReading, moved, passed, movedBy};

use crate::byte::peek;
use crate::constant::TAB_SIZE;
use crate::event::Point;
use crate::line::ends_line;

// How to handle a byte.
#[derive(Clone, Copy, Debug, PartialEq, Eq)]
pub enum ByteAction {
    // The last reading of a byte.
    Normal(u8),
    // The byte is skipped.
    Ignore,
    // A reading of a tab after which others follow.
    Insert(u8),
}

// How often a tab at a column is read.
pub fn tab_readings(column: usize) -> usize
    ensures { result ≡ tabReadings column }
{
    TAB_SIZE - column.saturating_sub(1) % TAB_SIZE
}

// As what a tab is read, after so many readings.
fn tab_read(vs: usize) -> u8
    ensures { result ≡ tabRead vs }
{
    if vs == 0 { b'\t' } else { b' ' }
}

impl Point {
    // How to handle the byte at the point, if there is one.
    pub fn byte_action(self, bytes: &[u8]) -> Option<ByteAction>
        ensures { actionOf result ≡ actionAt self (drop self.index bytes.now) }
    {
        let byte = *bytes.get(self.index)?;
        Some(match byte {
            b'\r' => {
                if peek(bytes, self.index + 1) == Some(b'\n') {
                    ByteAction::Ignore
                } else {
                    ByteAction::Normal(b'\n')
                }
            }
            b'\t' => {
                let read = tab_read(self.vs);
                if tab_readings(self.column) == 1 {
                    ByteAction::Normal(read)
                } else {
                    ByteAction::Insert(read)
                }
            }
            _ => ByteAction::Normal(byte),
        })
    }

    // Past a line ending: at the next line's first column.
    fn next_line(self) -> Point
        ensures { result ≡ nextLine self }
    {
        Point {
            line: self.line.wrapping_add(1),
            column: 1,
            index: self.index.wrapping_add(1),
            vs: 0,
        }
    }

    // Past a byte that takes so many columns.
    fn next_byte(self, columns: usize) -> Point
        ensures { result ≡ nextByte self columns }
    {
        Point {
            column: self.column.wrapping_add(columns),
            index: self.index.wrapping_add(1),
            vs: 0,
            ..self
        }
    }

    // Past the CR of CR LF.
    fn skip_byte(self) -> Point
        ensures { result ≡ skipByte self }
    {
        Point {
            index: self.index.wrapping_add(1),
            ..self
        }
    }

    // Past a reading of a tab after which others follow.
    fn next_reading(self) -> Point
        ensures { result ≡ nextReading self }
    {
        Point {
            column: self.column.wrapping_add(1),
            vs: self.vs.wrapping_add(1),
            ..self
        }
    }

    // One reading further.
    pub fn move_one(self, bytes: &[u8]) -> Point
        ensures { result ≡ moved self (actionAt self (drop self.index bytes.now)) }
    {
        match self.byte_action(bytes) {
            Some(ByteAction::Normal(b'\n')) => self.next_line(),
            Some(ByteAction::Normal(_)) => self.next_byte(1),
            Some(ByteAction::Ignore) => self.skip_byte(),
            Some(ByteAction::Insert(_)) => self.next_reading(),
            None => self,
        }
    }

    // Past the byte at the index, by all of its readings.
    fn move_past(self, bytes: &[u8], index: usize) -> Point
        requires { index < length bytes.now }
        ensures { result ≡ passed self (drop index bytes.now) }
    {
        if ends_line(bytes, index) {
            return self.next_line();
        }
        match bytes[index] {
            b'\r' => self.skip_byte(),
            b'\t' => self.next_byte(tab_readings(self.column)),
            _ => self.next_byte(1),
        }
    }

    // To an index at or after the point's, or to the end.
    pub fn move_to(self, bytes: &[u8], index: usize) -> Point
        ensures { result ≡ movedBy (index - self.index) self (drop self.index bytes.now) }
    {
        let mut point = self;
        for i in self.index..index.min(bytes.len()) {
            point = point.move_past(bytes, i);
        }
        point
    }
}
