// Whether one object of an accepted state is in an accepted view: what the decider asks of its own state.
ghost use Rattle.std.specs.Prelude.{◌≡◌};
ghost use Rattle.records.specs.Executable.{is_in};
ghost use Rattle.records.specs.ConceptRecord.{concept_of};
ghost use Rattle.records.specs.StateRecord.{state_of};
ghost use Rattle.judge.specs.Member.{Judgeable};

use records::schema::Signature;

pub fn selects(s: Signature, view: &[u16], state: &[u16], object: usize) -> bool
    requires { Judgeable s view.now state.now object }
    ensures { result ≡ is_in (state_of state.now) (concept_of view.now) object }
{
    let set = evaluate::evaluate(s, view, state);
    index::bits::has(&set, object)
}
