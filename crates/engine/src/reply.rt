// What is said to a question that was asked.
ghost use Rattle.std.specs.Prelude.{◌≡◌, ◌≤◌, length, take};

use crate::cursor::Row;
use crate::sizes::NUMBERS;

// A reply: the answer's numbers, the first `count` in an array that has room for the most, since memory is fixed; and where the row
// that was written lies in the question's bytes, if one was.
#[derive(Clone, Copy)]
pub struct Reply {
    pub numbers: [usize; NUMBERS],
    pub count: usize,
    pub row: Option<Row>,
    ghost few: { count ≤ 6 },
}

impl Reply {
    // The reply with an answer's numbers and the row that was written.
    pub fn new(said: &[usize], row: Option<Row>) -> Reply
        requires { length said.now ≤ 6 }
        ensures numbers { take result.count result.numbers ≡ said.now }
        ensures row { result.row ≡ row }
    {
        let count = said.len();
        let mut numbers = [0; NUMBERS];
        numbers[..count].copy_from_slice(said);
        Reply {
            numbers,
            count,
            row,
        }
    }
}
