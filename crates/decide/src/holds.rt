// Holds: whether in every legal state each object in the query is in the view, without the state that shows it is not. Arbitrary
// words are taken; faulty records are refused.
ghost use Rattle.decide.specs.Holding.{Holding};

use crate::check::check;
use crate::held::held;
use records::refusal::Refusal;

pub fn holds(schema: &[u16], query: &[u16], view: &[u16]) -> Result<bool, Refusal>
    ensures { Holding schema.now query.now view.now result }
{
    check(schema, query, view)?;
    Ok(held(schema, query, view))
}
