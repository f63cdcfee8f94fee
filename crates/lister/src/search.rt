// The search: operations are placed one by one, in the order of their numbers, and the rows are met in increasing order.
ghost use Rattle.std.specs.Prelude.{◌+◌};
ghost use Rattle.lister.specs.Search.{Ready, Searched, Begins, StaysEqual, Reaches};
ghost use Rattle.lister.specs.Lent.{job_in, asked_of};

use crate::job::Job;
use model::limits::OPERATIONS;
use placement::fits;

// The first start to try of operation i, whose window begins at `early`: the window's first, and not before the entry of the row asked after.
fn first_try(early: u16, after: Option<&[u16]>, i: usize) -> u16
    requires { Reaches (asked_of after) (i + 1) }
    ensures { Begins (asked_of after.entry) i early result }
{
    after.map_or(early, |row| early.max(row[i]))
}

// The row asked after, if operation i starts as it does there; else none: what starts later comes after it whatever stands behind.
fn still_after(after: Option<&[u16]>, i: usize, start: u16) -> Option<&[u16]>
    requires { Reaches (asked_of after) (i + 1) }
    ensures { StaysEqual (asked_of after.entry) i start (asked_of result) }
{
    after.filter(|row| row[i] == start)
}

impl Job<'_> {
    // The least row that completes `starts`, of which i operations are placed: each start in i's window at which it fits, and the others behind it.
    // As long as the starts are those of the row asked after, it is the least that comes after that row.
    // Whether there is one is a test beside the row, which is filled in place while the search goes on and back: an Option of it is no plainer.
    pub fn place(&self, starts: &mut [u16; OPERATIONS], i: usize, after: Option<&[u16]>) -> bool
        requires { Ready (job_in self.now) starts.old i (asked_of after) }
        ensures { Searched (job_in self.now) starts.old i (asked_of after.entry) starts.new result }
    {
        if i == self.work.delays.len() {
            return after.is_none();
        }
        let first = first_try(self.early[i], after, i);
        let last = self.late[i];
        for t in first..=last {
            starts[i] = t;
            if fits(&self.work, &self.links, starts, i)
                && self.place(starts, i + 1, still_after(after, i, t))
            {
                return true;
            }
        }
        false
    }
}
