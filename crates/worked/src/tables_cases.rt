// Cases 1, 2, 6 and 7: the tables, and the cycle shown.
use crate::eleven::{GRAPH, MANY};
use crate::say::{Refused, spaced};
use model::Refusal;
use model::graph::Graph;
use std::io;

// Ends a line with what a question that fills a row answered: the row, or the refusal.
fn filled<F: FnOnce(&mut [u16]) -> Result<(), Refusal>>(
    rt: &impl Print,
    row: &mut [u16],
    ask: F,
) -> io::Result<()>
    requires { F.IsAlwaysCallable ask }
{
    match ask(row) {
        Ok(()) => println!(rt; "{}", spaced(row)),
        Err(why) => println!(rt; "{}", Refused { why, row }),
    }
}

// Cases 1 and 2: the eleven-operation graph, without a bound and at two of them.
pub fn eleven(rt: &impl Print) -> io::Result<()> {
    print!(rt; "1 asap: ")?;
    filled(rt, &mut [0; MANY], |row| tables::asap(&GRAPH, row))?;
    for bound in [4, 3] {
        print!(rt; "2 alap {bound}: ")?;
        filled(rt, &mut [0; MANY], |row| tables::alap(&GRAPH, bound, row))?;
        print!(rt; "2 mobility {bound}: ")?;
        filled(
            rt,
            &mut [0; MANY],
            |row| tables::mobility(&GRAPH, bound, row),
        )?;
    }
    Ok(())
}

// Three operations of delay 1 and one type, with these edges.
fn three<'a>(from: &'a [u16; 3], to: &'a [u16; 3]) -> Graph<'a> {
    Graph {
        delays: &[1; 3],
        types: &[0; 3],
        kinds: 1,
        from,
        to,
    }
}

// Cases 6 and 7: cycles.
pub fn cycles(rt: &impl Print) -> io::Result<()> {
    print!(rt; "6 asap: ")?;
    filled(
        rt,
        &mut [0; 3],
        |row| tables::asap(&three(&[0, 1, 2], &[1, 2, 0]), row),
    )?;
    print!(rt; "7 asap: ")?;
    filled(
        rt,
        &mut [0; 3],
        |row| tables::asap(&three(&[1, 2, 1], &[2, 1, 0]), row),
    )
}
