// States judged: select, legal and counterexample.
ghost use Rattle.std.specs.Prelude.{◌≡◌};
ghost use Rattle.judge.specs.Select.{select_outcome};
ghost use Rattle.judge.specs.LegalState.{legal_answer};
ghost use Rattle.judge.specs.Counterexample.{counterexample_answer};
ghost use Rattle.c_answers.specs.Given.{GivenTo, one_more};

use c_answers::given::{give_count, give_place};
use judge::counterexample::counterexample;
use judge::legal::legal;
use judge::select::select;

#[unsafe(no_mangle)]
pub extern "C" fn bikuvoa_select(
    schema: &[u16],
    concept: &[u16],
    state: &[u16],
    lent: &mut [u16],
    selected: &mut u64,
) -> u16
    ensures given { GivenTo (λ n. n) (select_outcome schema.now concept.now state.now lent.old).answer selected.old result selected.new }
    ensures words { lent.new ≡ (select_outcome schema.now concept.now state.now lent.old).words }
{
    give_count(select(schema, concept, state, lent), selected)
}

#[unsafe(no_mangle)]
pub extern "C" fn bikuvoa_legal(schema: &[u16], state: &[u16], broken: &mut u64) -> u16
    ensures { GivenTo one_more (legal_answer schema.now state.now) broken.old result broken.new }
{
    give_place(legal(schema, state), broken)
}

#[unsafe(no_mangle)]
pub extern "C" fn bikuvoa_counterexample(
    schema: &[u16],
    query: &[u16],
    view: &[u16],
    state: &[u16],
    found: &mut u64,
) -> u16
    ensures { GivenTo one_more (counterexample_answer schema.now query.now view.now state.now) found.old result found.new }
{
    give_place(counterexample(schema, query, view, state), found)
}
