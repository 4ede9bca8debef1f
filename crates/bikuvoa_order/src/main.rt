// Puts the views of catalogue.bin in order under schema.bin, both of the folder it is run in: a line for each group with the
// numbers of its views, a narrower group before a wider one; then, after an empty line, a line for each view with the views by
// which it is held. Or it prints REFUSED with the number. What order and verdicts promise and which words a file's bytes give is
// proved; what is printed is held to the stored run.
#![tactic(auto)]

use catalogue::arrange::Order;
use catalogue::order::order;
use catalogue::sets::has;
use catalogue::verdicts::verdicts;
use check_catalogue::{MAX_VIEWS, views};
use records::refusal::Refusal;
use records::schema::{MAX_AXIOMS, SCHEMA_SIZES};
use records::token::{CONCEPT_SIZES, MAX_TOKENS};
use std::io;
use std::rt::Files;

// The most words of an accepted record. A longer file gives no words.
const SCHEMA_WORDS: usize = SCHEMA_SIZES + 2 * MAX_AXIOMS;

const CATALOGUE_WORDS: usize = 1 + MAX_VIEWS * (1 + CONCEPT_SIZES + 2 * MAX_TOKENS);

// Room for more than the longer of the two.
const BYTES: usize = 2 * CATALOGUE_WORDS + 1;

// Each number after the first has a space before it.
fn print_view(rt: &impl Print, first: bool, view: usize) -> io::Result<()> {
    if first {
        print!(rt; "{view}")
    } else {
        print!(rt; " {view}")
    }
}

fn print_group(rt: &impl Print, set: u16) -> io::Result<()> {
    let mut first = true;
    for view in 0..MAX_VIEWS {
        if has(set, view) {
            print_view(rt, first, view)?;
            first = false;
        }
    }
    println!(rt; "")
}

fn print_row(rt: &impl Print, row: &[bool]) -> io::Result<()> {
    let mut first = true;
    for (view, held) in row.iter().enumerate() {
        if *held {
            print_view(rt, first, view)?;
            first = false;
        }
    }
    println!(rt; "")
}

fn print_order(rt: &impl Print, found: &Order) -> io::Result<()> {
    for (k, group) in found.groups.iter().enumerate() {
        if (k as u64) < found.count {
            print_group(rt, *group)?;
        }
    }
    println!(rt; "")
}

fn print_table(
    rt: &impl Print,
    table: &[[bool; MAX_VIEWS]; MAX_VIEWS],
    count: usize,
) -> io::Result<()> {
    for row in table.iter().take(count) {
        print_row(rt, row)?;
    }
    Ok(())
}

fn print_refusal(rt: &impl Print, refusal: Refusal) -> io::Result<()> {
    println!(rt; "REFUSED {}", u16::from(refusal))
}

fn run(rt: &impl Print, schema: &[u16], catalogue: &[u16]) -> io::Result<()> {
    match order(schema, catalogue) {
        Ok(found) => print_order(rt, &found)?,
        Err(refusal) => return print_refusal(rt, refusal),
    }
    match verdicts(schema, catalogue) {
        Ok(table) => print_table(rt, &table, views(catalogue)),
        Err(refusal) => print_refusal(rt, refusal),
    }
}

fn run_with_schema(rt: &(impl Files + Print), schema: &[u16], bytes: &mut [u8]) -> io::Result<()> {
    let mut catalogue = [0u16; CATALOGUE_WORDS];
    let n = files::load(rt, b"catalogue.bin", bytes, &mut catalogue);
    run(rt, schema, &catalogue[..n])
}

fn main(rt: HostRuntime) -> io::Result<()> {
    let mut bytes = [0u8; BYTES];
    let mut schema = [0u16; SCHEMA_WORDS];
    let n = files::load(&rt, b"schema.bin", &mut bytes, &mut schema);
    run_with_schema(&rt, &schema[..n], &mut bytes)
}
