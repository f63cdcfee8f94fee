// Cases 12 and 13: the checker, and peak use.
use crate::say::{Refused, spaced};
use model::graph::Graph;
use model::{Finding, Refusal};
use std::{fmt, io};

// One operation of delay 2, and no edge.
const ONE: Graph<'static> = Graph {
    delays: &[2],
    types: &[0],
    kinds: 1,
    from: &[],
    to: &[],
};

// Two such operations.
const TWO: Graph<'static> = Graph {
    delays: &[2, 2],
    types: &[0, 0],
    ..ONE
};

// What the checker found, in words.
#[derive(Clone, Copy)]
struct Found(Finding);

impl fmt::Display for Found {
    fn fmt<W: fmt::Write>(&self, f: &mut fmt::Formatter<W>) -> fmt::Result {
        match self.0 {
            Finding::Lawful => f.write_str("lawful"),
            Finding::Untimely(operation) => write!(f, "untimely {operation}"),
            Finding::Broken(edge) => write!(f, "broken {edge}"),
            Finding::OverUse(step, kind) => write!(f, "over-use at step {step} type {kind}"),
        }
    }
}

// Ends a line with what the checker answered: what it found, or the refusal.
fn verdict(rt: &impl Print, answer: Result<Finding, Refusal>) -> io::Result<()> {
    match answer {
        Ok(finding) => println!(rt; "{}", Found(finding)),
        Err(why) => println!(rt; "{}", Refused { why, row: &[] }),
    }
}

// Ends a line with the peaks of the two at these starts, or the refusal.
fn peaks(rt: &impl Print, starts: &[u16; 2]) -> io::Result<()> {
    match peak_use::peak_use(&TWO, starts) {
        Ok(counts) => println!(rt; "{}", spaced(&counts)),
        Err(why) => println!(rt; "{}", Refused { why, row: &[] }),
    }
}

// One operation at start 1, checked at two bounds; then two on one unit, checked at two rows of starts, and their peaks at the first.
pub fn checks(rt: &impl Print) -> io::Result<()> {
    for bound in [2, 1] {
        print!(rt; "12 check {bound}: ")?;
        verdict(rt, checker::check(&ONE, &[1], bound, &[1]))?;
    }
    for starts in [[1, 2], [1, 3]] {
        print!(rt; "13 check {}: ", spaced(&starts))?;
        verdict(rt, checker::check(&TWO, &[1], 4, &starts))?;
    }
    print!(rt; "13 peak 1 2: ")?;
    peaks(rt, &[1, 2])
}
