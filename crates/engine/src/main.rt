// The engine: the scheduler's questions through a pipe, as docs/ENGINE.md frames them.
#![tactic(auto)]

mod bytes;
mod cursor;
mod dispatch;
mod fault;
mod pipe;
mod question;
mod questions;
mod reply;
mod serve;
mod sizes;

fn main(rt: HostRuntime) {
    serve::serve(rt.stdin(), rt.stdout());
}
