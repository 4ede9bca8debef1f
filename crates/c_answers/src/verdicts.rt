// What C gets of decide and holds.
ghost use Rattle.c_answers.specs.Given.{GivenTo};
ghost use Rattle.c_answers.specs.Verdicts.{held_bit, WitnessTo};

use crate::given::give;
use decide::Witness;
use records::refusal::Refusal;

// 1 for held, 0 for open.
pub fn give_held(answer: Result<bool, Refusal>, held: &mut u64) -> u16
    ensures { GivenTo held_bit answer held.old result held.new }
{
    give(answer.map(u64::from), held)
}

// Where a view holds the query there is no state, and so no object of it.
pub fn give_witness(
    answer: Result<Option<Witness>, Refusal>,
    objects: &mut u64,
    object: &mut u64,
) -> u16
    ensures { WitnessTo answer objects.old object.old result objects.new object.new }
{
    match answer {
        Ok(None) => {
            *objects = 0;
            0
        }
        Ok(Some(witness)) => {
            *objects = witness.objects as u64;
            *object = witness.object as u64;
            0
        }
        Err(refusal) => u16::from(refusal),
    }
}
