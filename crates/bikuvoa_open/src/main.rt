// The program bikuvoa once more, for a stored run with an open answer and its facts.
#![tactic(auto)]

use std::io;

fn main(rt: HostRuntime) -> io::Result<()> {
    decide_files::run_folder(&rt)
}
