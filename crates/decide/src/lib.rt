// Decide: whether in every legal state each object in the query is in the view. If not, a legal state with an object in the
// query and outside the view is written to the lent words. Arbitrary words are taken; faulty records are refused.
#![tactic(auto)]

ghost use Rattle.decide.specs.Decision.{Decision};

use crate::check::check;
use crate::verdict::answer;
use records::refusal::Refusal;
use records::state::STATE_WORDS;

mod check;
pub mod held;
pub mod holds;
mod start;
mod verdict;

// What shows that a query is open to a view: how many objects the written state has, and the object in the query and outside the
// view.
#[derive(Clone, Copy)]
pub struct Witness {
    pub objects: usize,
    pub object: usize,
}

// Nothing where the view holds the query.
pub fn decide(
    schema: &[u16],
    query: &[u16],
    view: &[u16],
    lent: &mut [u16],
) -> Result<Option<Witness>, Refusal>
    ensures { Decision schema.now query.now view.now lent.old result lent.new }
{
    check(schema, query, view)?;
    if lent.len() < STATE_WORDS {
        return Err(Refusal::LentWords);
    }
    Ok(answer(schema, query, view, lent))
}
