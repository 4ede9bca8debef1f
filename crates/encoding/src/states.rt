// Writes the record of a state from the list of its facts, each a number of two words (specs/Encoding of records).
ghost use Rattle.std.specs.Prelude.{◌≡◌, ◌++◌, ◌*◌, ◌<◌, ◌≤◌, ◌^◌, length, drop};
ghost use Rattle.records.specs.Layout.{state_layout, length_for};
ghost use Rattle.records.specs.Encoding.{class_fact, class_facts_in, state_record};

use crate::halves::fill;
use records::state::{
    AT_CLASS_FACTS, AT_FACTS, AT_OBJECTS, ATTRIBUTE_KINDS, OBJECT_PART, STATE_SIZES, WORD_PART,
};

// The fact is of a class.
fn class_fact(fact: u32) -> bool
    ensures { result ≡ class_fact fact }
{
    fact as usize / WORD_PART / OBJECT_PART < ATTRIBUTE_KINDS
}

// How many of the facts are of classes.
fn class_facts_in(facts: &[u32]) -> usize
    ensures { (result ≡ class_facts_in facts.now) × (result ≤ length facts.now) }
{
    facts.iter().filter(|fact| class_fact(**fact)).count()
}

// The sizes, then the words of the facts. The answer is how many words the record takes.
pub fn write(objects: usize, facts: &[u32], lent: &mut [u16]) -> usize
    requires { (objects < 2 ^ 16) × (length facts.now < 2 ^ 16) × (length_for state_layout (length facts.now) ≤ length lent.old) }
    ensures value { result ≡ length (state_record objects facts.now) }
    ensures lent_after { lent.new ≡ state_record objects facts.now ++ drop result lent.old }
{
    let n = facts.len();
    lent[AT_OBJECTS] = objects as u16;
    lent[AT_FACTS] = n as u16;
    lent[AT_CLASS_FACTS] = class_facts_in(facts) as u16;
    fill(facts, &mut lent[STATE_SIZES..]);
    STATE_SIZES + 2 * n
}
