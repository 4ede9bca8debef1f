// Links: the pairs of an attribute whose first object a concept selects, counted from both ends. The season sheet goes by first
// object, the strap room by second object.
#![tactic(auto)]

ghost use Rattle.std.specs.Prelude.{◌≡◌};
ghost use Rattle.records.specs.ConceptRecord.{concept_of};
ghost use Rattle.records.specs.StateRecord.{state_of};
ghost use Rattle.links.specs.Links.{links_by_first, links_by_second, by_first_answer, by_second_answer, checked, Countable};

use crate::counts::{count_links, tally, total};
use check_concept::check_concept;
use check_schema::check_schema;
use check_state::check_state;
use records::concept::Plain;
use records::refusal::Refusal;
use records::schema::Signature;
use records::state::{ATTRIBUTE_KINDS, objects};

mod counts;

// What both counts check before they begin; the state's refusals come before the attribute's.
fn check(
    schema: &[u16],
    concept: &[u16],
    state: &[u16],
    attribute: usize,
) -> Result<Signature, Refusal>
    ensures { result ≡ checked schema.now concept.now state.now attribute }
{
    let declared = check_schema(schema);
    let Ok(s) = declared else {
        return Err(declared.unwrap_err());
    };
    let read = check_concept::<Plain>(s, concept);
    let Ok(_) = read else {
        return Err(read.unwrap_err());
    };
    let judged = check_state(s, state);
    let Ok(_) = judged else {
        return Err(judged.unwrap_err());
    };
    if s.attributes <= attribute {
        return Err(Refusal::Attribute);
    }
    Ok(s)
}

fn count_by_first(s: Signature, concept: &[u16], state: &[u16], attribute: usize) -> usize
    requires { Countable s concept.now state.now attribute }
    ensures { result ≡ links_by_first (state_of state.now) (concept_of concept.now) attribute }
{
    let set = evaluate::evaluate(s, concept, state);
    count_links(state, ATTRIBUTE_KINDS + attribute, &set)
}

fn count_by_second(s: Signature, concept: &[u16], state: &[u16], attribute: usize) -> usize
    requires { Countable s concept.now state.now attribute }
    ensures { result ≡ links_by_second (state_of state.now) (concept_of concept.now) attribute }
{
    let set = evaluate::evaluate(s, concept, state);
    let counts = tally(state, ATTRIBUTE_KINDS + attribute, &set);
    total(&counts, objects(state))
}

// The two entries share their check. What is still alike is shorter than a function that takes what counts as a closure.

// For each selected object, how many values of the attribute it has, summed.
#[tactic(auto, using(crate::proofs::CheckedLaws::countable), unfolding(records::specs::Outcome::outcome, records::specs::Outcome::first_refusal))]
pub fn by_first(
    schema: &[u16],
    concept: &[u16],
    state: &[u16],
    attribute: u16,
) -> Result<usize, Refusal>
    ensures { result ≡ by_first_answer schema.now concept.now state.now attribute }
{
    let p = usize::from(attribute);
    let s = check(schema, concept, state, p)?;
    Ok(count_by_first(s, concept, state, p))
}

// For each object, how many selected objects have it as a value of the attribute, summed.
#[tactic(auto, using(crate::proofs::CheckedLaws::countable), unfolding(records::specs::Outcome::outcome, records::specs::Outcome::first_refusal))]
pub fn by_second(
    schema: &[u16],
    concept: &[u16],
    state: &[u16],
    attribute: u16,
) -> Result<usize, Refusal>
    ensures { result ≡ by_second_answer schema.now concept.now state.now attribute }
{
    let p = usize::from(attribute);
    let s = check(schema, concept, state, p)?;
    Ok(count_by_second(s, concept, state, p))
}
