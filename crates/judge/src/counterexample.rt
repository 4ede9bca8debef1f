// Counterexample: the lowest object of a legal state that is in the query and outside the view.
ghost use Rattle.std.specs.Prelude.{◌≡◌, cond, Some, None};
ghost use Rattle.records.specs.Finite.{any, least};
ghost use Rattle.records.specs.SchemaRecord.{schema_of};
ghost use Rattle.records.specs.ConceptRecord.{concept_of};
ghost use Rattle.records.specs.StateRecord.{state_of};
ghost use Rattle.judge.specs.Counterexample.{apart, finding, counterexample_answer, Accepted};

use check_concept::check_concept;
use check_schema::check_schema;
use check_state::check_state;
use index::bits::has;
use reading::used;
use records::concept::{Query, View};
use records::marks::allow;
use records::refusal::Refusal;
use records::schema::Signature;
use records::state::objects;
use rows::sizes::SET_WORDS;

// The lowest number below `n` in the first set and not in the second.
fn lowest(query: &[u64; SET_WORDS], view: &[u64; SET_WORDS], n: usize) -> Option<usize>
    ensures { result ≡ cond (any n (apart query.now view.now)) (Some (least n (apart query.now view.now))) None }
{
    (0..n).find(|d| has(query, *d) & !has(view, *d))
}

// What accepted records answer.
fn find(s: Signature, schema: &[u16], query: &[u16], view: &[u16], state: &[u16]) -> Option<usize>
    requires { Accepted s schema.now query.now view.now state.now }
    ensures { result ≡ finding (schema_of schema.now) (state_of state.now) (concept_of query.now) (concept_of view.now) }
{
    let seen = index::left::index(state);
    if legality::first_broken(s, schema, state, &seen).is_some() {
        return None;
    }
    let inside = evaluate::evaluate(s, query, state);
    let outside = evaluate::evaluate(s, view, state);
    lowest(&inside, &outside, objects(state))
}

// The lowest counterexample, if there is one, or the first refusal that applies.
pub fn counterexample(
    schema: &[u16],
    query: &[u16],
    view: &[u16],
    state: &[u16],
) -> Result<Option<usize>, Refusal>
    ensures { result ≡ counterexample_answer schema.now query.now view.now state.now }
{
    let declared = check_schema(schema);
    let Ok(s) = declared else {
        return Err(declared.unwrap_err());
    };
    let read = check_concept::<Query>(s, query);
    let Ok(_) = read else {
        return Err(read.unwrap_err());
    };
    let stored = check_concept::<View>(s, view);
    let Ok(_) = stored else {
        return Err(stored.unwrap_err());
    };
    // The state gives an object to each mark that the query uses, and to no other.
    let chosen = allow(s, used(query));
    let judged = check_state(chosen, state);
    let Ok(_) = judged else {
        return Err(judged.unwrap_err());
    };
    Ok(find(chosen, schema, query, view, state))
}
