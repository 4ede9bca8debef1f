// Links counted from both ends.
ghost use Rattle.links.specs.Links.{by_first_answer, by_second_answer};
ghost use Rattle.c_answers.specs.Given.{GivenTo};

use c_answers::given::give_count;
use links::{by_first, by_second};

#[unsafe(no_mangle)]
pub extern "C" fn bikuvoa_links_by_first(
    schema: &[u16],
    concept: &[u16],
    state: &[u16],
    attribute: u16,
    links: &mut u64,
) -> u16
    ensures { GivenTo (λ n. n) (by_first_answer schema.now concept.now state.now attribute) links.old result links.new }
{
    give_count(by_first(schema, concept, state, attribute), links)
}

#[unsafe(no_mangle)]
pub extern "C" fn bikuvoa_links_by_second(
    schema: &[u16],
    concept: &[u16],
    state: &[u16],
    attribute: u16,
    links: &mut u64,
) -> u16
    ensures { GivenTo (λ n. n) (by_second_answer schema.now concept.now state.now attribute) links.old result links.new }
{
    give_count(by_second(schema, concept, state, attribute), links)
}
