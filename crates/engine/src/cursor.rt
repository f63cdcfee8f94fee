// A question's numbers and rows, read from the front of its bytes.
ghost use Rattle.std.specs.Prelude.{◌≡◌, ◌+◌, ◌*◌, ◌≤◌, length, OnOk, IfOk};
ghost use Rattle.engine.specs.Frame.{longest, part, eight, bytes_at, past_bytes, four};

use crate::bytes::{read_eight, read_four, read_two};
use crate::fault::Fault;
use crate::sizes::LONGEST;

// Where the entries of a row of two-byte numbers lie among a question's bytes. A place and a length, and no slice: the row is written over the
// bytes when they are lent no more.
#[derive(Clone, Copy)]
pub struct Row {
    pub at: usize,
    pub len: usize,
}

// A question's bytes, and how far they are read. Each method says that the bytes stay, since it is lent the cursor to move it.
#[derive(Drop)]
pub struct Cursor<'a> {
    bytes: &'a [u8],
    at: usize,
    ghost within: { at ≤ length bytes.now },
}

impl<'a> Cursor<'a> {
    ghost use Rattle.engine.specs.Rows.{WordsRead, AtEnd};

    // Nothing is read yet.
    pub fn new(bytes: &'a [u8]) -> Cursor<'a>
        ensures bytes { result.bytes.now ≡ bytes.now }
        ensures at { result.at ≡ 0 }
    {
        Cursor { bytes, at: 0 }
    }

    // So many bytes, the next ones.
    fn take(&mut self, count: usize) -> Result<&'a [u8], Fault>
        ensures same { self.new.bytes.now ≡ self.old.bytes.now }
        ensures taken { IfOk result (λ r. r.now ≡ part self.old.bytes.now self.old.at count) }
        ensures moved { OnOk result (self.new.at ≡ self.old.at + count) }
        ensures inside { OnOk result (self.old.at + count ≤ length self.old.bytes.now) }
    {
        if self.bytes.len() - self.at < count {
            return Err(Fault::Misfit);
        }
        let begin = self.at;
        self.at += count;
        Ok(&self.bytes[begin..self.at])
    }

    // The next number.
    pub fn number(&mut self) -> Result<usize, Fault>
        ensures same { self.new.bytes.now ≡ self.old.bytes.now }
        ensures read { IfOk result (λ n. n ≡ eight self.old.bytes.now self.old.at) }
        ensures moved { OnOk result (self.new.at ≡ self.old.at + 8) }
    {
        let begin = self.at;
        self.take(8)?;
        Ok(read_eight(self.bytes, begin))
    }

    // The length of the next row, with its entries still to come.
    fn length(&mut self) -> Result<usize, Fault>
        ensures same { self.new.bytes.now ≡ self.old.bytes.now }
        ensures read { IfOk result (λ n. n ≡ four self.old.bytes.now self.old.at) }
        ensures short { IfOk result (λ n. n ≤ longest) }
        ensures moved { OnOk result (self.new.at ≡ self.old.at + 4) }
    {
        let begin = self.at;
        self.take(4)?;
        let len = read_four(self.bytes, begin) as usize;
        if LONGEST < len {
            return Err(Fault::TooLong);
        }
        Ok(len)
    }

    // The next row, one of bytes.
    pub fn bytes(&mut self) -> Result<&'a [u8], Fault>
        ensures same { self.new.bytes.now ≡ self.old.bytes.now }
        ensures read { IfOk result (λ r. r.now ≡ bytes_at self.old.bytes.now self.old.at) }
        ensures short { IfOk result (λ r. length r.now ≤ longest) }
        ensures moved { OnOk result (self.new.at ≡ past_bytes self.old.bytes.now self.old.at) }
    {
        let len = self.length()?;
        self.take(len)
    }

    // The next row, one of two-byte numbers, is read over the first entries of another, which has room for the longest. Where it lies.
    pub fn words(&mut self, into: &mut [u16]) -> Result<Row, Fault>
        requires { longest ≤ length into.old }
        ensures same { self.new.bytes.now ≡ self.old.bytes.now }
        ensures read { IfOk result (λ r. WordsRead self.old.bytes.now self.old.at r into.new self.new.at) }
        ensures same_length { length into.new ≡ length into.old }
    {
        let len = self.length()?;
        let at = self.at;
        let entries = self.take(2 * len)?;
        for (i, word) in into[..len].iter_mut().enumerate() {
            *word = read_two(entries, 2 * i);
        }
        Ok(Row { at, len })
    }

    // No bytes are left over.
    pub fn end(&self) -> Result<(), Fault>
        ensures { OnOk result (self.now.at ≡ length self.now.bytes.now) }
    {
        if self.at != self.bytes.len() {
            return Err(Fault::Misfit);
        }
        Ok(())
    }

    // The last row, one of two-byte numbers, is read over the first entries of another, which has room for the longest. Where it lies.
    pub fn last_words(mut self, into: &mut [u16]) -> Result<Row, Fault>
        requires { longest ≤ length into.old }
        ensures read { IfOk result (λ r. AtEnd self.entry.bytes.now self.entry.at r into.new) }
        ensures same_length { length into.new ≡ length into.old }
    {
        let row = self.words(into)?;
        self.end()?;
        Ok(row)
    }
}
