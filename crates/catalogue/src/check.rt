// The schema, then the catalogue.
ghost use Rattle.std.specs.Prelude.{◌≡◌};
ghost use Rattle.catalogue.specs.Answers.{checked};

use check_catalogue::check_catalogue;
use check_schema::check_schema;
use records::refusal::Refusal;

// The first refusal that applies, or nothing.
pub fn check(schema: &[u16], catalogue: &[u16]) -> Result<(), Refusal>
    ensures { result ≡ checked schema.now catalogue.now }
{
    let declared = check_schema(schema);
    let Ok(s) = declared else {
        return Err(declared.unwrap_err());
    };
    check_catalogue(s, catalogue)
}
