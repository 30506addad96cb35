// Replays a script: makes each call that a line asks for, and prints what it answered.

#![tactic(auto)]

mod replaying;
mod session;
mod sessions;

use replaying::Replay;
use scripts::Script;
use sessions::replay;
use std::io;
use std::io::{BufWriter, Read, Write};

fn main(rt: HostRuntime) -> io::Result<()> {
    let mut bytes = Vec::new(rt.alloc());
    rt.stdin().read_to_end(&mut bytes)?;
    let mut run = Replay {
        rt: &rt,
        out: BufWriter::new(rt.alloc(), rt.stdout())?,
        script: Script::new(bytes.as_slice()),
    };
    replay(&mut run)?;
    run.out.flush()
}
