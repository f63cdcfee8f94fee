// The worked cases, run; what they write is kept beside this file and compared.
#![tactic(auto)]

use std::io;

mod eleven;
mod lister_cases;
mod rule_cases;
mod say;
mod tables_cases;
mod units_cases;

// Writes every case in turn, until one can no longer be written.
fn main(rt: HostRuntime) -> io::Result<()> {
    tables_cases::eleven(&rt)?;
    rule_cases::eleven(&rt)?;
    tables_cases::cycles(&rt)?;
    lister_cases::small(&rt)?;
    units_cases::checks(&rt)?;
    lister_cases::windows(&rt)?;
    lister_cases::eleven(&rt)
}
