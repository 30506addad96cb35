// A replay under way: what each of its sessions works with.
use answers::Output;
use scripts::Script;

#[derive(Drop)]
pub struct Replay<'a> {
    // The machine that it runs on.
    pub rt: &'a HostRuntime,
    // Where the answers go.
    pub out: Output,
    // The lines to come.
    pub script: Script<'a>,
}
