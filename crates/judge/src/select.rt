// Select: which objects of a state are in a concept, as words that the caller lends.
ghost use Rattle.std.specs.Prelude.{◌≡◌, ◌++◌, ◌≤◌, length, drop};
ghost use Rattle.records.specs.Finite.{count};
ghost use Rattle.index.specs.BitSet.{bit_at};
ghost use Rattle.judge.specs.Select.{flags, select_outcome};

use check_concept::check_concept;
use check_schema::check_schema;
use check_state::check_state;
use records::concept::Plain;
use records::refusal::Refusal;
use records::state::objects;
use rows::sizes::SET_WORDS;

// Writes 1 or 0 for each of the first `n` numbers, by whether the set has it, and counts the ones.
fn flag(set: &[u64; SET_WORDS], n: usize, lent: &mut [u16]) -> usize
    requires { n ≤ length lent.old }
    ensures count { result ≡ count n (bit_at set.now) }
    ensures words { lent.new ≡ flags (bit_at set.now) n ++ drop n lent.old }
{
    let mut found = 0;
    // By number: of what is written through `lent.iter_mut()` under an adapter, as `enumerate`, the check knows nothing.
    for i in 0..n {
        let here = index::bits::has(set, i);
        lent[i] = u16::from(here);
        found += usize::from(here);
    }
    found
}

// How many objects are selected, or the first refusal that applies.
pub fn select(
    schema: &[u16],
    concept: &[u16],
    state: &[u16],
    lent: &mut [u16],
) -> Result<usize, Refusal>
    ensures { record { answer = result; words = lent.new } ≡ select_outcome schema.now concept.now state.now lent.old }
{
    let declared = check_schema(schema);
    let Ok(s) = declared else {
        return Err(declared.unwrap_err());
    };
    let read = check_concept::<Plain>(s, concept);
    let Ok(_) = read else {
        return Err(read.unwrap_err());
    };
    let judged = check_state(s, state);
    let Ok(_) = judged else {
        return Err(judged.unwrap_err());
    };
    let n = objects(state);
    if lent.len() < n {
        return Err(Refusal::LentWords);
    }
    let set = evaluate::evaluate(s, concept, state);
    Ok(flag(&set, n, lent))
}
