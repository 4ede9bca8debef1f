// Legal: whether every axiom holds in a state, and otherwise the first broken one.
ghost use Rattle.std.specs.Prelude.{◌≡◌};
ghost use Rattle.judge.specs.LegalState.{legal_answer};

use check_schema::check_schema;
use check_state::check_state;
use records::refusal::Refusal;

// The place of the first broken axiom, if one is broken, or the first refusal that applies.
#[tactic(auto, using(records::proofs::OutcomeLaws::declared_by, crate::proofs::LegalLaws::broken_answered))]
pub fn legal(schema: &[u16], state: &[u16]) -> Result<Option<usize>, Refusal>
    ensures { result ≡ legal_answer schema.now state.now }
{
    let declared = check_schema(schema);
    let Ok(s) = declared else {
        return Err(declared.unwrap_err());
    };
    let judged = check_state(s, state);
    let Ok(_) = judged else {
        return Err(judged.unwrap_err());
    };
    let seen = index::left::index(state);
    Ok(legality::first_broken(s, schema, state, &seen))
}
