// What decide and holds check before they begin.
ghost use Rattle.std.specs.Prelude.{◌≡◌};
ghost use Rattle.decide.specs.Holding.{checked};

use check_concept::check_concept;
use check_schema::check_schema;
use records::concept::{Query, View};
use records::refusal::Refusal;

// The schema, the query and the view, in this order: the first refusal that applies, or nothing.
pub fn check(schema: &[u16], query: &[u16], view: &[u16]) -> Result<(), Refusal>
    ensures { result ≡ checked schema.now query.now view.now }
{
    let declared = check_schema(schema);
    let Ok(s) = declared else {
        return Err(declared.unwrap_err());
    };
    let read = check_concept::<Query>(s, query);
    let Ok(_) = read else {
        return Err(read.unwrap_err());
    };
    let stored = check_concept::<View>(s, view);
    let Ok(_) = stored else {
        return Err(stored.unwrap_err());
    };
    Ok(())
}
