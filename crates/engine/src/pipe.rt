// The pipe: standard input and standard output, by whole pieces.
ghost use Rattle.std.specs.Prelude.{◌≡◌, ◌≤◌, length, take, IfSome, IfErr, OnOk};
ghost use Rattle.std.specs.Io.{StartsWith};

use crate::fault::Fault;
use std::io::{Read, Stdout, Write};
use std::ops::ControlFlow;

// Reads until `bytes` is full, the input ends or a read fails. How many bytes came: `read_exact` of std does not say that. They are the first
// that the input has, where those are known, as a slice's are. Each read brings as many bytes as it likes, so the loop is no `for`.
pub fn read_full<R: Read + Drop>(mut input: R, bytes: &mut [u8]) -> usize
    ensures at_most_all { result ≤ length bytes.new }
    ensures same_length { length bytes.new ≡ length bytes.old }
    ensures came { IfSome (R.remaining input) (λ known. StartsWith known (take result bytes.new)) }
{
    let mut got = 0;
    while got < bytes.len() {
        match input.read(&mut bytes[got..]) {
            Ok(0) | Err(_) => return got,
            Ok(some) => got += some,
        }
    }
    got
}

// Reads all of `bytes`, within a question: the first bytes that the input has, where those are known, or the question is cut off.
pub fn read_all<R: Read + Drop>(input: R, bytes: &mut [u8]) -> Result<(), Fault>
    ensures same_length { length bytes.new ≡ length bytes.old }
    ensures came { OnOk result (IfSome (R.remaining input) (λ known. StartsWith known bytes.new)) }
    ensures cut_off { IfErr result (λ fault. fault ≡ Fault.CutOff) }
{
    if read_full(input, bytes) < bytes.len() {
        return Err(Fault::CutOff);
    }
    Ok(())
}

// Writes all of `bytes`. Where nobody reads them, the engine is to end.
pub fn write_all(mut output: Stdout, bytes: &[u8]) -> ControlFlow<()> {
    match output.write_all(bytes) {
        Ok(()) => ControlFlow::Continue(()),
        Err(_) => ControlFlow::Break(()),
    }
}
