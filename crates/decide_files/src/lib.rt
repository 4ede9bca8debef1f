// Decides the triple in schema.bin, query.bin and view.bin of the folder it is run in, and prints HELD, or OPEN with the
// number of objects and the object and then each fact of the state, or REFUSED with the number. What decide promises and
// which words a file's bytes give is proved; what is printed is held to the stored runs of bikuvoa and bikuvoa_open.
#![tactic(auto)]

use decide::decide;
use records::layout::{left, right};
use records::schema::{MAX_AXIOMS, SCHEMA_SIZES};
use records::state::{STATE_WORDS, facts, state_layout};
use records::token::{CONCEPT_SIZES, MAX_TOKENS};
use std::io;
use std::rt::Files;

// The most words of an accepted record. A longer file gives no words.
const SCHEMA_WORDS: usize = SCHEMA_SIZES + 2 * MAX_AXIOMS;

const CONCEPT_WORDS: usize = CONCEPT_SIZES + 2 * MAX_TOKENS;

// Room for more than the longer of the two.
const BYTES: usize = 2 * SCHEMA_WORDS + 1;

fn print_facts(rt: &impl Print, words: &[u16]) -> io::Result<()> {
    for i in 0..facts(words) {
        println!(rt;
            "{} {}",
            left(state_layout(), words, i),
            right(state_layout(), words, i)
        )?;
    }
    Ok(())
}

fn run(rt: &impl Print, schema: &[u16], query: &[u16], view: &[u16]) -> io::Result<()> {
    let mut lent = [0u16; STATE_WORDS];
    match decide(schema, query, view, &mut lent) {
        Ok(None) => println!(rt; "HELD"),
        Ok(Some(witness)) => {
            println!(rt; "OPEN {} {}", witness.objects, witness.object)?;
            print_facts(rt, &lent)
        }
        Err(refusal) => println!(rt; "REFUSED {}", u16::from(refusal)),
    }
}

// The view is looked at last.
fn run_with_query(
    rt: &(impl Files + Print),
    schema: &[u16],
    query: &[u16],
    bytes: &mut [u8],
) -> io::Result<()> {
    let mut view = [0u16; CONCEPT_WORDS];
    let n = files::load(rt, b"view.bin", bytes, &mut view);
    run(rt, schema, query, &view[..n])
}

fn run_with_schema(rt: &(impl Files + Print), schema: &[u16], bytes: &mut [u8]) -> io::Result<()> {
    let mut query = [0u16; CONCEPT_WORDS];
    let n = files::load(rt, b"query.bin", bytes, &mut query);
    run_with_query(rt, schema, &query[..n], bytes)
}

// Fails only where a write to standard output does.
pub fn run_folder(rt: &(impl Files + Print)) -> io::Result<()> {
    let mut bytes = [0u8; BYTES];
    let mut schema = [0u16; SCHEMA_WORDS];
    let n = files::load(rt, b"schema.bin", &mut bytes, &mut schema);
    run_with_schema(rt, &schema[..n], &mut bytes)
}
