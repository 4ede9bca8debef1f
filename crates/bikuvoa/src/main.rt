// Decides the triple in schema.bin, query.bin and view.bin of the folder it is run in, and prints the answer.
#![tactic(auto)]

use std::io;

fn main(rt: HostRuntime) -> io::Result<()> {
    decide_files::run_folder(&rt)
}
