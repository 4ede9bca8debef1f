// Whether the view holds the query, of accepted records, without the state that shows it does not.
ghost use Rattle.records.specs.Helpers.Triple.{Triple};
ghost use Rattle.decide.specs.Holding.{Tells};

use crate::verdict::answer;

pub fn held(schema: &[u16], query: &[u16], view: &[u16]) -> bool
    requires { Triple schema.now query.now view.now }
    ensures { Tells schema.now query.now view.now result }
{
    // No words are lent, so that no state is written.
    let mut none = [0u16; 1];
    let told = answer(schema, query, view, &mut none);
    told.is_none()
}
