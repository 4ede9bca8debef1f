// Runs the checks over the cases of data/cases.bin and prints a line for each: its place, the record's role, and the
// refusal's number, 0 if it is accepted. tests/record_edges.py has the cases and what document 01 says of each.
#![tactic(auto)]

use check_concept::check_concept;
use check_schema::check_schema;
use check_state::check_state;
use reading::used;
use records::concept::{Plain, Query, View};
use records::marks::allow;
use records::refusal::Refusal;
use records::schema::Signature;
use std::io;
use std::rt::Files;

const WORDS: usize = 163_840;

const BYTES: usize = 2 * WORDS;

fn number<T: Drop>(answer: Result<T, Refusal>) -> u16 {
    answer.map_or_else(u16::from, |_| 0)
}

// Checks one record in its role. An accepted schema is the one under which the next records stand, and an accepted query the one
// whose marks the next states have.
fn check(rt: &impl Print, role: u16, s: Signature, record: &[u16]) -> io::Result<Signature> {
    match role {
        1 => {
            let answer = check_schema(record);
            println!(rt; " schema {}", number(answer))?;
            Ok(answer.unwrap_or(s))
        }
        2 => {
            let answer = check_concept::<Query>(s, record);
            println!(rt; " query {}", number(answer))?;
            Ok(answer.map_or(s, |_| allow(s, used(record))))
        }
        3 => {
            println!(rt; " view {}", number(check_concept::<View>(s, record)))?;
            Ok(s)
        }
        4 => {
            println!(rt; " concept {}", number(check_concept::<Plain>(s, record)))?;
            Ok(s)
        }
        _ => {
            println!(rt; " state {}", number(check_state(s, record)))?;
            Ok(s)
        }
    }
}

// A case is its role, its length and its words.
fn run(rt: &impl Print, words: &[u16]) -> io::Result<()> {
    let mut s = Signature {
        classes: 0,
        attributes: 0,
        constants: 0,
        loose: 0,
        marks: 0,
    };
    let mut rest = words;
    let mut case: u64 = 0;
    while let [role, length, others @ ..] = rest {
        let n = usize::from(*length);
        if others.len() < n {
            return Ok(());
        }
        print!(rt; "{case}")?;
        s = check(rt, *role, s, &others[..n])?;
        rest = &others[n..];
        case = case.wrapping_add(1);
    }
    Ok(())
}

fn load_and_run(rt: &(impl Files + Print), bytes: &mut [u8], words: &mut [u16]) -> io::Result<()> {
    let n = files::load(rt, b"cases.bin", bytes, words);
    run(rt, &words[..n])
}

fn main(rt: HostRuntime) -> io::Result<()> {
    let mut bytes = [0u8; BYTES];
    let mut words = [0u16; WORDS];
    load_and_run(&rt, &mut bytes, &mut words)
}
