// Held or open: decide, and holds, which writes no state.
ghost use Rattle.c_answers.specs.Verdicts.{HoldsTo, DecidedTo};

use c_answers::verdicts::{give_held, give_witness};
use decide::decide;
use decide::holds::holds;

#[unsafe(no_mangle)]
pub extern "C" fn bikuvoa_holds(schema: &[u16], query: &[u16], view: &[u16], held: &mut u64) -> u16
    ensures { HoldsTo schema.now query.now view.now held.old result held.new }
{
    give_held(holds(schema, query, view), held)
}

#[unsafe(no_mangle)]
pub extern "C" fn bikuvoa_decide(
    schema: &[u16],
    query: &[u16],
    view: &[u16],
    lent: &mut [u16],
    objects: &mut u64,
    object: &mut u64,
) -> u16
    ensures { DecidedTo schema.now query.now view.now lent.old objects.old object.old result lent.new objects.new object.new }
{
    give_witness(decide(schema, query, view, lent), objects, object)
}
