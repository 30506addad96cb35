// Refusals.
use crate::output::Output;
use refusals::Refusal;
use std::io;
use std::io::Write;

// Says why a call was refused, by number, layer and place.
pub fn show_refusal(out: &mut Output, refusal: Refusal) -> io::Result<()> {
    let number = refusal.number();
    let layer = refusal.layer();
    let place = refusal.place();
    writeln!(out, "refused {number} {layer} {place}")
}
