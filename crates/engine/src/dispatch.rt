// From a question's number and bytes to its reply.
ghost use Rattle.std.specs.Prelude.{◌≡◌, ◌+◌, ◌*◌, ◌≤◌, length, OnOk, IfOk};
ghost use Rattle.model.specs.Lent.{graph_in};
ghost use Rattle.engine.specs.Asked.{ViewReply};
ghost use Rattle.engine.specs.Frame.{longest, eight};
ghost use Rattle.engine.specs.Numbers.{numbers_of};
ghost use Rattle.engine.specs.Dispatch.{GraphReply, Replied, Answers};

use crate::cursor::Cursor;
use crate::fault::Fault;
use crate::question::{About, Question};
use crate::questions::{advance, alap, asap, check, first, list, mobility, next, peak};
use crate::reply::Reply;
use crate::sizes::LONGEST;
use model::graph::Graph;

// A question about a graph that is read, whose second number is a bound or a step.
fn about(
    question: About,
    graph: &Graph<'_>,
    second: usize,
    rest: Cursor<'_>,
    out: &mut [u16],
) -> Result<Reply, Fault>
    requires { longest ≤ length out.old }
    ensures { GraphReply (graph_in graph.now) second rest.entry.bytes.now rest.entry.at result out.new question }
{
    match question {
        About::Asap => asap(graph, rest, out),
        About::Alap => alap(graph, second, rest, out),
        About::Mobility => mobility(graph, second, rest, out),
        About::List => list(graph, rest, out),
        About::Advance => advance(graph, second, rest, out),
        About::Check => check(graph, second, rest),
        About::Peak => peak(graph, rest),
        About::First => first(graph, second, rest, out),
        About::Next => next(graph, second, rest, out),
    }
}

// The second number of a question that takes one: its bound or step. Where it takes none, nothing is read, and 0 is
// not looked at: an Option would be unwrapped at six questions.
fn second_of(question: About, rest: &mut Cursor<'_>) -> Result<usize, Fault>
    ensures same { rest.new.bytes.now ≡ rest.old.bytes.now }
    ensures read { IfOk result (λ n. numbers_of question ≡ 2 → n ≡ eight rest.old.bytes.now rest.old.at) }
    ensures moved { OnOk result (rest.new.at + 8 ≡ rest.old.at + 8 * numbers_of question) }
{
    if question.numbers() < 2 {
        return Ok(0);
    }
    rest.number()
}

// A question about a graph: the graph's numbers and rows are read and lent.
fn graph_question(question: About, body: &[u8], out: &mut [u16]) -> Result<Reply, Fault>
    requires { longest ≤ length out.old }
    ensures { Replied body.now result out.new (Question.Graph question) }
{
    let mut rest = Cursor::new(body);
    let kinds = rest.number()?;
    let second = second_of(question, &mut rest)?;
    let delays = rest.bytes()?;
    let types = rest.bytes()?;
    let mut from = [0; LONGEST];
    let from_row = rest.words(&mut from)?;
    let mut to = [0; LONGEST];
    let to_row = rest.words(&mut to)?;
    let graph = Graph {
        delays,
        types,
        kinds,
        from: &from[..from_row.len],
        to: &to[..to_row.len],
    };
    about(question, &graph, second, rest, out)
}

// A part of a channel's table, without a graph.
fn view(body: &[u8]) -> Result<Reply, Fault>
    ensures { ViewReply (eight body.now 0) (eight body.now 8) (eight body.now 16) body.now 24 result }
{
    let mut rest = Cursor::new(body);
    let channel = rest.number()?;
    let first = rest.number()?;
    let count = rest.number()?;
    let mut a = [0; LONGEST];
    let a_row = rest.words(&mut a)?;
    let mut b = [0; LONGEST];
    let b_row = rest.last_words(&mut b)?;
    let said = pedal::pedal_view(&a[..a_row.len], &b[..b_row.len], channel, first, count);
    Ok(Reply::new(&[said.refusal, said.start, said.length], None))
}

// The reply to the question that has a number; the row that it writes is left in the first entries of `out`.
pub fn ask(number: usize, body: &[u8], out: &mut [u16]) -> Result<Reply, Fault>
    requires { longest ≤ length out.old }
    ensures { Answers body.now result out.new number }
{
    match Question::try_from(number)? {
        Question::Graph(question) => graph_question(question, body, out),
        Question::View => view(body),
    }
}
