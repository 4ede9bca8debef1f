// A concept checked by itself in each role, and what it names.
ghost use Rattle.records.specs.Check.{plain_check, query_check, view_check};
ghost use Rattle.c_answers.specs.Given.{GivenTo};

use c_answers::given::give_named;
use check_concept::check::check;
use records::concept::{Plain, Query, View};

#[unsafe(no_mangle)]
pub extern "C" fn bikuvoa_check_concept(
    schema: &[u16],
    concept: &[u16],
    classes: &mut u32,
    attributes: &mut u32,
    named: &mut u64,
) -> u16
    ensures { GivenTo (λ x. x) (plain_check schema.now concept.now) (record { classes = classes.old; attributes = attributes.old; count = named.old }) result (record { classes = classes.new; attributes = attributes.new; count = named.new }) }
{
    give_named(check::<Plain>(schema, concept), classes, attributes, named)
}

#[unsafe(no_mangle)]
pub extern "C" fn bikuvoa_check_query(
    schema: &[u16],
    query: &[u16],
    classes: &mut u32,
    attributes: &mut u32,
    named: &mut u64,
) -> u16
    ensures { GivenTo (λ x. x) (query_check schema.now query.now) (record { classes = classes.old; attributes = attributes.old; count = named.old }) result (record { classes = classes.new; attributes = attributes.new; count = named.new }) }
{
    give_named(check::<Query>(schema, query), classes, attributes, named)
}

#[unsafe(no_mangle)]
pub extern "C" fn bikuvoa_check_view(
    schema: &[u16],
    view: &[u16],
    classes: &mut u32,
    attributes: &mut u32,
    named: &mut u64,
) -> u16
    ensures { GivenTo (λ x. x) (view_check schema.now view.now) (record { classes = classes.old; attributes = attributes.old; count = named.old }) result (record { classes = classes.new; attributes = attributes.new; count = named.new }) }
{
    give_named(check::<View>(schema, view), classes, attributes, named)
}
