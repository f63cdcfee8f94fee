// Cases 8 to 11 and 14, and all schedules of the eleven-operation graph at bound 5: the lister.
ghost use Rattle.std.specs.Prelude.{◌≤◌};
ghost use Rattle.model.specs.Limits.{operations};

use crate::eleven::{GRAPH, MANY};
use crate::say::{Refused, joined, spaced};
use model::graph::Graph;
use model::limits::OPERATIONS;
use model::{Listed, Refusal};
use std::{fmt, io};

// The largest number of answers that a listing here asks for.
const MOST: usize = 1000;

// The prime that a checksum stays below.
const PRIME: u64 = 1000000007;

// Delays of 1, as many as a graph can have.
const ONES: [u8; OPERATIONS] = [1; OPERATIONS];

// As many types, all of them 0.
const ZEROS: [u8; OPERATIONS] = [0; OPERATIONS];

// What the lister is asked about: a graph, its unit counts and a bound.
#[derive(Clone, Copy)]
struct Question<'a> {
    graph: Graph<'a>,
    units: &'a [u8],
    bound: usize,
}

// What the lister answered about N operations, no more than the limit, and the row that it filled.
#[derive(Clone, Copy)]
struct Answer<const N: usize> {
    listed: Result<Listed, Refusal>,
    row: [u16; N],
    ghost few: { N ≤ operations },
}

// The answers of the lister to one question: the next one, as long as the one before found a schedule.
#[derive(Drop)]
struct Answers<'a, const N: usize> {
    question: &'a Question<'a>,
    next: Option<Answer<N>>,
}

impl Question<'_> {
    // The first answer.
    fn first<const N: usize>(&self) -> Answer<N>
        requires { N ≤ operations }
    {
        let mut row = [0; N];
        let listed = lister::first(&self.graph, self.units, self.bound, &mut row);
        Answer { listed, row }
    }

    // The answer after a row of starts.
    fn after<const N: usize>(&self, starts: &[u16; N]) -> Answer<N>
        requires { N ≤ operations }
    {
        let mut row = [0; N];
        let listed = lister::next(&self.graph, self.units, self.bound, starts, &mut row);
        Answer { listed, row }
    }

    // All answers, one after another.
    fn answers<const N: usize>(&self) -> Answers<'_, N>
        requires { N ≤ operations }
    {
        Answers {
            question: self,
            next: Some(self.first()),
        }
    }
}

impl<const N: usize> Iterator for Answers<'_, N> {
    type Item = Answer<N>;

    fn next(&mut self) -> Option<Answer<N>> {
        let answer = self.next?;
        self.next = if answer.found() {
            Some(self.question.after(&answer.row))
        } else {
            None
        };
        Some(answer)
    }
}

impl<const N: usize> Answer<N> {
    // Whether the lister found a schedule.
    fn found(&self) -> bool {
        matches!(self.listed, Ok(Listed::Found))
    }
}

impl<const N: usize> fmt::Display for Answer<N> {
    fn fmt<W: fmt::Write>(&self, f: &mut fmt::Formatter<W>) -> fmt::Result {
        let row = &self.row;
        match self.listed {
            Ok(Listed::Found) => write!(f, "({})", joined(row, ",")),
            Ok(Listed::NoneLeft) => f.write_str("none left"),
            Err(why) => write!(f, "{}", Refused { why, row }),
        }
    }
}

// Ends a line with all answers, one after another.
fn all<I: Iterator<Item: fmt::Display + Drop> + Drop>(rt: &impl Print, answers: I) -> io::Result<()>
    requires { I.can_next answers }
{
    for answer in answers.take(MOST) {
        print!(rt; " {answer}")?;
    }
    println!(rt)
}

// A question about so many operations of delay 1 and one type, with no edge.
fn apart(many: usize, units: &[u8], bound: usize) -> Question<'_>
    requires { many ≤ operations }
{
    let graph = Graph {
        delays: &ONES[..many],
        types: &ZEROS[..many],
        kinds: 1,
        from: &[],
        to: &[],
    };
    Question {
        graph,
        units,
        bound,
    }
}

// Case 10: two operations of delay 1, an edge from the first to the second, two units and bound 3.
const TENTH: Question<'static> = Question {
    graph: Graph {
        delays: &[1, 1],
        types: &[0, 0],
        kinds: 1,
        from: &[0],
        to: &[1],
    },
    units: &[2],
    bound: 3,
};

// Cases 8 to 11: no operation; two of them on one unit and on two; two and an edge, also after a row; three with no room.
pub fn small(rt: &impl Print) -> io::Result<()> {
    print!(rt; "8 all:")?;
    all(rt, apart(0, &[1], 0).answers::<0>())?;
    for units in [1, 2] {
        print!(rt; "9 all {units}:")?;
        all(rt, apart(2, &[units], 2).answers::<2>())?;
    }
    print!(rt; "10 all:")?;
    all(rt, TENTH.answers::<2>())?;
    for starts in [[1, 3], [0, 9], [65535, 65535]] {
        println!(rt; "10 next {}: {}", spaced(&starts), TENTH.after(&starts))?;
    }
    print!(rt; "11 all:")?;
    all(rt, apart(3, &[1], 2).answers::<3>())
}

// Case 14: the product of the windows at the limit, and past it; each operation has a unit.
pub fn windows(rt: &impl Print) -> io::Result<()> {
    println!(rt; "14 first 19: {}", apart(19, &[19], 2).first::<19>())?;
    println!(rt; "14 first 20: {}", apart(20, &[20], 2).first::<20>())
}

// What one start makes of a checksum.
fn folded(sum: u64, start: &u16) -> u64 {
    (sum % PRIME * 31 + u64::from(*start)) % PRIME
}

// The eleven-operation graph at bound 5, units 2 and 2: the number of its schedules, and their checksum.
pub fn eleven(rt: &impl Print) -> io::Result<()> {
    let question = Question {
        graph: GRAPH,
        units: &[2, 2],
        bound: 5,
    };
    let found = question
        .answers::<MANY>()
        .take_while(|answer| answer.found());
    let mut count = 0;
    let mut sum = 0;
    for (nth, answer) in (1..=MOST).zip(found) {
        count = nth;
        sum = answer.row.iter().fold(sum, folded);
    }
    println!(rt; "eleven all 5: {count} schedules, checksum {sum}")
}
