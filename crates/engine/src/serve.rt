// One question after another, from standard input to standard output.
ghost use Rattle.std.specs.Prelude.{◌≡◌, ◌+◌, ◌*◌, ◌≤◌, length, IfOk, IfSome};
ghost use Rattle.engine.specs.Frame.{longest, four};
ghost use Rattle.engine.specs.Laid.{Within};
ghost use Rattle.engine.specs.Serving.{most, Lies};

use crate::bytes::{lay_eight, lay_four, lay_words, read_four};
use crate::cursor::Row;
use crate::dispatch::ask;
use crate::fault::Fault;
use crate::pipe::{read_all, read_full, write_all};
use crate::reply::Reply;
use crate::sizes::{FRAME, HEAD, LONGEST, MOST};
use std::io::{Stdin, Stdout};
use std::ops::ControlFlow;

// The kind of an answer to a question that was asked: a number of the wire, and no fault.
const ASKED: u32 = 0;

// What stands before a question's bytes: its number, and their size, which the frame has room for.
#[derive(Clone, Copy)]
struct Head {
    number: usize,
    size: usize,
    ghost few: { size ≤ most },
}

// The engine: the pipe, and the frame with a question's bytes and room for what stands before an answer's.
#[derive(Drop)]
struct Engine {
    input: Stdin,
    output: Stdout,
    frame: [u8; FRAME],
}

// Says a fault in the framing: its kind, and that nothing follows.
fn say_fault(output: Stdout, fault: Fault) -> ControlFlow<()> {
    let mut said = [0; 8];
    lay_four(u32::from(fault), &mut said, 0);
    write_all(output, &said)
}

// Writes the numbers of an answer, eight bytes each, from a place on. The other bytes stay.
fn lay_numbers(numbers: &[usize], bytes: &mut [u8], at: usize)
    requires { at + 8 * length numbers.now ≤ length bytes.old }
    ensures { Within bytes.old at (8 * length numbers.now) bytes.new }
{
    for (i, number) in numbers.iter().enumerate() {
        lay_eight(*number, bytes, at + 8 * i);
    }
}

impl Engine {
    // Reads past so many bytes.
    fn pass_over(&mut self, size: usize) -> Result<(), Fault> {
        for _ in 0..size / MOST {
            read_all(self.input, &mut self.frame[..MOST])?;
        }
        read_all(self.input, &mut self.frame[..size % MOST])
    }

    // Reads a question's number and size, and its bytes into the frame; none where the input ends before it.
    fn read_question(&mut self) -> Result<Option<Head>, Fault> {
        let mut head = [0; 8];
        match read_full(self.input, &mut head) {
            0 => return Ok(None),
            8 => {}
            _ => return Err(Fault::CutOff),
        }
        let number = read_four(&head, 0) as usize;
        let size = read_four(&head, 4) as usize;
        if MOST < size {
            self.pass_over(size)?;
            return Err(Fault::TooLong);
        }
        read_all(self.input, &mut self.frame[HEAD..HEAD + size])?;
        Ok(Some(Head { number, size }))
    }

    // Lays kind, size and numbers right before the question's bytes, and the written row over them. Where the answer begins: the four bytes
    // there are the kind of a question that was asked.
    fn lay_reply(&mut self, reply: Reply, out: &[u16], size: usize) -> usize
        requires room { longest ≤ length out.now }
        requires fits { (size ≤ most) × IfSome reply.row (Lies size) }
        ensures begin { result ≤ 48 }
        ensures kind { four self.new.frame result ≡ 0 }
    {
        if let Some(row) = reply.row {
            lay_words(&out[..row.len], &mut self.frame, HEAD + row.at);
        }
        let count = reply.count;
        let begin = HEAD - 8 * count - 8;
        lay_four(ASKED, &mut self.frame, begin);
        lay_four((8 * count + size) as u32, &mut self.frame, begin + 4);
        lay_numbers(&reply.numbers[..count], &mut self.frame, begin + 8);
        begin
    }

    // Answers a question: its numbers, and its bytes with the row written, by way of `out`.
    fn answer(&mut self, head: Head, out: &mut [u16]) -> ControlFlow<()>
        requires { longest ≤ length out.old }
    {
        let end = HEAD + head.size;
        match ask(head.number, &self.frame[HEAD..end], out) {
            Ok(reply) => {
                let begin = self.lay_reply(reply, out, head.size);
                write_all(self.output, &self.frame[begin..end])
            }
            Err(fault) => say_fault(self.output, fault),
        }
    }

    // Reads one question and answers it; `out` has room for the row that it writes. Whether to go on.
    fn serve_one(&mut self, out: &mut [u16]) -> ControlFlow<()>
        requires { longest ≤ length out.old }
    {
        match self.read_question() {
            Ok(Some(head)) => self.answer(head, out),
            Ok(None) => ControlFlow::Break(()),
            Err(Fault::CutOff) => {
                say_fault(self.output, Fault::CutOff)?;
                ControlFlow::Break(())
            }
            Err(fault) => say_fault(self.output, fault),
        }
    }
}

// Answers questions until the input ends, a question is cut off, or nobody reads the answers. The loop has an end that no run reaches, since
// a loop with none would need a handle that the repository does not take. One row serves all questions: it is filled with zeros once.
pub fn serve(input: Stdin, output: Stdout) {
    let mut engine = Engine {
        input,
        output,
        frame: [0; FRAME],
    };
    let mut out = [0; LONGEST];
    for _ in 0..u64::MAX {
        if engine.serve_one(&mut out).is_break() {
            return;
        }
    }
}
