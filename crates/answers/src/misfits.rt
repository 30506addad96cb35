// Lines that do not fit.
use crate::fault::Fault;
use crate::output::Output;
use std::io;
use std::io::Write;

// Says why a line does not fit.
pub fn report(out: &mut Output, number: u64, fault: Fault) -> io::Result<()> {
    match fault {
        Fault::Misfit(misfit) => writeln!(out, "line {number}: {misfit}"),
        Fault::Io(e) => Err(e),
    }
}
