// Decides the triples of data/triples.bin and prints a line for each: its place, the verdict, and of an open one what the
// counterexample check says of the state. tests/triples.py has the triples and what the papers say of each.
#![tactic(auto)]

use decide::decide;
use judge::counterexample::counterexample;
use records::state::{STATE_SIZES, STATE_WORDS, facts};
use std::io;
use std::rt::Files;

const WORDS: usize = 16_384;

const BYTES: usize = 2 * WORDS;

// Whether the check finds the object that decide named.
fn report_state(
    rt: &impl Print,
    schema: &[u16],
    query: &[u16],
    view: &[u16],
    lent: &[u16],
    object: usize,
) -> io::Result<()> {
    let n = STATE_SIZES + 2 * facts(lent);
    if lent.len() < n {
        return Ok(());
    }
    match counterexample(schema, query, view, &lent[..n]) {
        Ok(Some(found)) if found == object => println!(rt; "OPEN, a counterexample"),
        Ok(Some(_)) => println!(rt; "OPEN, another counterexample"),
        Ok(None) | Err(_) => println!(rt; "OPEN, no counterexample"),
    }
}

fn report(rt: &impl Print, schema: &[u16], query: &[u16], view: &[u16]) -> io::Result<()> {
    let mut lent = [0u16; STATE_WORDS];
    match decide(schema, query, view, &mut lent) {
        Ok(None) => println!(rt; "HELD"),
        Ok(Some(witness)) => report_state(rt, schema, query, view, &lent, witness.object),
        Err(refusal) => println!(rt; "REFUSED {}", u16::from(refusal)),
    }
}

// A triple is the lengths of its schema, query and view, and then their words.
fn run(rt: &impl Print, words: &[u16]) -> io::Result<()> {
    let mut rest = words;
    let mut case: u64 = 0;
    while let [schema, query, view, others @ ..] = rest {
        let s = usize::from(*schema);
        let q = s + usize::from(*query);
        let v = q + usize::from(*view);
        if others.len() < v {
            return Ok(());
        }
        print!(rt; "{case} ")?;
        report(rt, &others[..s], &others[s..q], &others[q..v])?;
        rest = &others[v..];
        case = case.wrapping_add(1);
    }
    Ok(())
}

fn load_and_run(rt: &(impl Files + Print), bytes: &mut [u8], words: &mut [u16]) -> io::Result<()> {
    let n = files::load(rt, b"triples.bin", bytes, words);
    run(rt, &words[..n])
}

fn main(rt: HostRuntime) -> io::Result<()> {
    let mut bytes = [0u8; BYTES];
    let mut words = [0u16; WORDS];
    load_and_run(&rt, &mut bytes, &mut words)
}
