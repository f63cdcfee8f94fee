// What the cases write alike: rows and refusals.
use model::Refusal;
use std::fmt;

// The entries of a row, with the same text between each two.
#[derive(Clone, Copy)]
pub struct Row<'a, T> {
    entries: &'a [T],
    between: &'static str,
}

// A row with this text between each two entries.
pub fn joined<'a, T>(entries: &'a [T], between: &'static str) -> Row<'a, T> {
    Row { entries, between }
}

// A row with a space between each two entries.
pub fn spaced<T>(entries: &[T]) -> Row<'_, T> {
    joined(entries, " ")
}

impl<T: fmt::Display> fmt::Display for Row<'_, T> {
    fn fmt<W: fmt::Write>(&self, f: &mut fmt::Formatter<W>) -> fmt::Result {
        for (i, entry) in self.entries.iter().enumerate() {
            if 0 < i {
                f.write_str(self.between)?;
            }
            write!(f, "{entry}")?;
        }
        Ok(())
    }
}

// A refusal by its number and place; where that is a cycle's length, the row begins with the cycle.
#[derive(Clone, Copy)]
pub struct Refused<'a> {
    pub why: Refusal,
    pub row: &'a [u16],
}

impl fmt::Display for Refused<'_> {
    fn fmt<W: fmt::Write>(&self, f: &mut fmt::Formatter<W>) -> fmt::Result {
        write!(f, "refused {} at {}", self.why.number(), self.why.place())?;
        if let Refusal::Cycle(length) = self.why {
            let shown = length.min(self.row.len());
            write!(f, ": {}", spaced(&self.row[..shown]))?;
        }
        Ok(())
    }
}
