// Where the answers go.
use std::io::{BufWriter, Stdout};

pub type Output = BufWriter<Stdout>;
