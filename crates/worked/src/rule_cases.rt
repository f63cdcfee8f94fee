// Cases 3, 4 and 5: the list schedule of the eleven-operation graph, and its first advance.
use crate::eleven::{GRAPH, MANY};
use crate::say::{Refused, spaced};
use list_schedule::State;
use model::graph::Graph;
use std::io;

// Ends a line with the list schedule of a graph of eleven operations: its latency and its row, or the refusal.
fn list(rt: &impl Print, graph: &Graph, units: &[u8]) -> io::Result<()> {
    let mut row = [0; MANY];
    match list_schedule::list_schedule(graph, units, &mut row) {
        Ok(latency) => println!(rt; "latency {latency}: {}", spaced(&row)),
        Err(why) => println!(rt; "{}", Refused { why, row: &row }),
    }
}

// Ends a line with the state after one advance from the fresh one: its step and its starts, or the refusal.
fn advance(rt: &impl Print) -> io::Result<()> {
    let mut state = State::fresh();
    match state.advance(&GRAPH, &[2, 2]) {
        Ok(()) => println!(rt; "step {}: {}", state.step, spaced(&state.starts[..MANY])),
        Err(why) => println!(rt; "{}", Refused { why, row: &[] }),
    }
}

// The three cases: in the fourth type 0 takes two steps, in the fifth there is one type.
pub fn eleven(rt: &impl Print) -> io::Result<()> {
    print!(rt; "3 list: ")?;
    list(rt, &GRAPH, &[2, 2])?;
    print!(rt; "3 advance: ")?;
    advance(rt)?;
    print!(rt; "4 list: ")?;
    let slower = Graph {
        delays: &[2, 2, 2, 1, 1, 2, 2, 2, 1, 1, 1],
        ..GRAPH
    };
    list(rt, &slower, &[3, 1])?;
    print!(rt; "5 list: ")?;
    let alike = Graph {
        types: &[0; MANY],
        kinds: 1,
        ..GRAPH
    };
    list(rt, &alike, &[3])
}
