// A concept checked by itself in a role: what it names, or the first refusal that applies. Arbitrary words are taken.
ghost use Rattle.std.specs.Prelude.{◌≡◌};
ghost use Rattle.records.specs.Check.{concept_check};

use crate::check_concept;
use check_schema::check_schema;
use records::concept::Role;
use records::named::Named;
use records::refusal::Refusal;

pub fn check<R: Role>(schema: &[u16], concept: &[u16]) -> Result<Named, Refusal>
    ensures { result ≡ concept_check R.STEPS R.MARKS schema.now concept.now }
{
    let declared = check_schema(schema);
    let Ok(s) = declared else {
        return Err(declared.unwrap_err());
    };
    let read = check_concept::<R>(s, concept);
    let Ok(named) = read else {
        return Err(read.unwrap_err());
    };
    Ok(named)
}
