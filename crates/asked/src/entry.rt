// The facts of an accepted query.
ghost use Rattle.records.specs.Layout.{query_steps};
ghost use Rattle.records.specs.Outcome.{query_signature};
ghost use Rattle.records.specs.SchemaRefusal.{AcceptedSchema};
ghost use Rattle.records.specs.ConceptRefusal.{AcceptedConcept};
ghost use Rattle.asked.specs.Answer.{Asked};

use crate::items::concept;
use crate::words::{Kind, Words};
use records::layout::word;
use records::token::{MAX_TOKENS, tokens};

// `schema` is the record whose names the query uses; the promises name it, and the code has no need of it.
pub fn asked(schema: &[u16], query: &[u16], kind: Kind) -> Words
    requires accepted_schema { AcceptedSchema schema.now }
    requires accepted_concept { AcceptedConcept query_steps (query_signature schema.now) query.now }
    ensures { Asked schema.now query.now kind result }
{
    // The steps' nodes come first: the start's number is how many there are.
    let start = word(query, 1);
    let none = Words {
        count: 0,
        words: [0; MAX_TOKENS],
    };
    concept(query, kind, start + 1, tokens(query), start, none)
}
