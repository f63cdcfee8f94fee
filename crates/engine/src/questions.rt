// The questions about a graph: the rows that are the question's own are read from the bytes after the graph and lent, and what the
// face says is the reply. Nine functions for nine questions: each calls another function of the face, with its own rows. One over a closure that
// is lent the row was tried: it is longer by 25 lines, and what the face says inside the closure was not proved of the reply.
ghost use Rattle.std.specs.Prelude.{◌≤◌, length};
ghost use Rattle.model.specs.Lent.{graph_in};
ghost use Rattle.engine.specs.Frame.{longest};
ghost use Rattle.engine.specs.Asked.{AsapReply, AlapReply, MobilityReply, ListReply, AdvanceReply, CheckReply, PeakReply, FirstReply, NextReply};

use crate::cursor::Cursor;
use crate::fault::Fault;
use crate::reply::Reply;
use crate::sizes::LONGEST;
use model::graph::Graph;

// Earliest starts.
pub fn asap(graph: &Graph<'_>, rest: Cursor<'_>, out: &mut [u16]) -> Result<Reply, Fault>
    requires { longest ≤ length out.old }
    ensures { AsapReply (graph_in graph.now) rest.entry.bytes.now rest.entry.at result out.new }
{
    let row = rest.last_words(out)?;
    let out = &mut out[..row.len];
    let said = pedal::pedal_asap(
        graph.delays,
        graph.types,
        graph.kinds,
        graph.from,
        graph.to,
        out,
    );
    Ok(Reply::new(&[said.refusal, said.place], Some(row)))
}

// Latest starts.
pub fn alap(
    graph: &Graph<'_>,
    bound: usize,
    rest: Cursor<'_>,
    out: &mut [u16],
) -> Result<Reply, Fault>
    requires { longest ≤ length out.old }
    ensures { AlapReply (graph_in graph.now) bound rest.entry.bytes.now rest.entry.at result out.new }
{
    let row = rest.last_words(out)?;
    let out = &mut out[..row.len];
    let said = pedal::pedal_alap(
        graph.delays,
        graph.types,
        graph.kinds,
        graph.from,
        graph.to,
        bound,
        out,
    );
    Ok(Reply::new(&[said.refusal, said.place], Some(row)))
}

// Latest less earliest starts.
pub fn mobility(
    graph: &Graph<'_>,
    bound: usize,
    rest: Cursor<'_>,
    out: &mut [u16],
) -> Result<Reply, Fault>
    requires { longest ≤ length out.old }
    ensures { MobilityReply (graph_in graph.now) bound rest.entry.bytes.now rest.entry.at result out.new }
{
    let row = rest.last_words(out)?;
    let out = &mut out[..row.len];
    let said = pedal::pedal_mobility(
        graph.delays,
        graph.types,
        graph.kinds,
        graph.from,
        graph.to,
        bound,
        out,
    );
    Ok(Reply::new(&[said.refusal, said.place], Some(row)))
}

// The list schedule.
pub fn list(graph: &Graph<'_>, mut rest: Cursor<'_>, out: &mut [u16]) -> Result<Reply, Fault>
    requires { longest ≤ length out.old }
    ensures { ListReply (graph_in graph.now) rest.entry.bytes.now rest.entry.at result out.new }
{
    let units = rest.bytes()?;
    let row = rest.last_words(out)?;
    let out = &mut out[..row.len];
    let said = pedal::pedal_list(
        graph.delays,
        graph.types,
        graph.kinds,
        graph.from,
        graph.to,
        units,
        out,
    );
    Ok(Reply::new(&[said.refusal, said.place, said.latency], Some(row)))
}

// One step of the list schedule.
pub fn advance(
    graph: &Graph<'_>,
    step: usize,
    mut rest: Cursor<'_>,
    out: &mut [u16],
) -> Result<Reply, Fault>
    requires { longest ≤ length out.old }
    ensures { AdvanceReply (graph_in graph.now) step rest.entry.bytes.now rest.entry.at result out.new }
{
    let units = rest.bytes()?;
    let row = rest.last_words(out)?;
    let out = &mut out[..row.len];
    let said = pedal::pedal_advance(
        graph.delays,
        graph.types,
        graph.kinds,
        graph.from,
        graph.to,
        units,
        step,
        out,
    );
    Ok(Reply::new(&[said.refusal, said.place, said.step], Some(row)))
}

// The checker.
pub fn check(graph: &Graph<'_>, bound: usize, mut rest: Cursor<'_>) -> Result<Reply, Fault>
    ensures { CheckReply (graph_in graph.now) bound rest.entry.bytes.now rest.entry.at result }
{
    let units = rest.bytes()?;
    let mut starts = [0; LONGEST];
    let row = rest.last_words(&mut starts)?;
    let starts = &starts[..row.len];
    let said = pedal::pedal_check(
        graph.delays,
        graph.types,
        graph.kinds,
        graph.from,
        graph.to,
        units,
        bound,
        starts,
    );
    let numbers = [
        said.refusal,
        said.place,
        said.finding,
        said.first,
        said.second,
    ];
    Ok(Reply::new(&numbers, None))
}

// Peak use.
pub fn peak(graph: &Graph<'_>, rest: Cursor<'_>) -> Result<Reply, Fault>
    ensures { PeakReply (graph_in graph.now) rest.entry.bytes.now rest.entry.at result }
{
    let mut starts = [0; LONGEST];
    let row = rest.last_words(&mut starts)?;
    let starts = &starts[..row.len];
    let said = pedal::pedal_peak(
        graph.delays,
        graph.types,
        graph.kinds,
        graph.from,
        graph.to,
        starts,
    );
    let numbers = [
        said.refusal,
        said.place,
        said.peak0,
        said.peak1,
        said.peak2,
        said.peak3,
    ];
    Ok(Reply::new(&numbers, None))
}

// The least lawful schedule.
pub fn first(
    graph: &Graph<'_>,
    bound: usize,
    mut rest: Cursor<'_>,
    out: &mut [u16],
) -> Result<Reply, Fault>
    requires { longest ≤ length out.old }
    ensures { FirstReply (graph_in graph.now) bound rest.entry.bytes.now rest.entry.at result out.new }
{
    let units = rest.bytes()?;
    let row = rest.last_words(out)?;
    let out = &mut out[..row.len];
    let said = pedal::pedal_first(
        graph.delays,
        graph.types,
        graph.kinds,
        graph.from,
        graph.to,
        units,
        bound,
        out,
    );
    Ok(Reply::new(&[said.refusal, said.place, said.found], Some(row)))
}

// The least lawful schedule after a row.
pub fn next(
    graph: &Graph<'_>,
    bound: usize,
    mut rest: Cursor<'_>,
    out: &mut [u16],
) -> Result<Reply, Fault>
    requires { longest ≤ length out.old }
    ensures { NextReply (graph_in graph.now) bound rest.entry.bytes.now rest.entry.at result out.new }
{
    let units = rest.bytes()?;
    let mut after = [0; LONGEST];
    let after_row = rest.words(&mut after)?;
    let after = &after[..after_row.len];
    let row = rest.last_words(out)?;
    let out = &mut out[..row.len];
    let said = pedal::pedal_next(
        graph.delays,
        graph.types,
        graph.kinds,
        graph.from,
        graph.to,
        units,
        bound,
        after,
        out,
    );
    Ok(Reply::new(&[said.refusal, said.place, said.found], Some(row)))
}
