// Answers with one out value, and what a concept names with three.
ghost use Rattle.std.specs.Prelude.{◌≡◌};
ghost use Rattle.c_answers.specs.Given.{GivenTo, one_more, PlaceFits};

use records::named::Named;
use records::refusal::Refusal;

pub fn give<T: Copy>(answer: Result<T, Refusal>, out: &mut T) -> u16
    ensures { GivenTo (λ x. x) answer out.old result out.new }
{
    match answer {
        Ok(value) => {
            *out = value;
            0
        }
        Err(refusal) => u16::from(refusal),
    }
}

// How many there are.
pub fn give_count(answer: Result<usize, Refusal>, count: &mut u64) -> u16
    ensures { GivenTo (λ n. n) answer count.old result count.new }
{
    give(answer.map(|n| n as u64), count)
}

// 0 for none, one more than the number that there is.
fn one_more(found: Option<usize>) -> u64
    requires { PlaceFits (Ok found) }
    ensures { result ≡ one_more found }
{
    found.map_or(0, |k| k as u64 + 1)
}

pub fn give_place(answer: Result<Option<usize>, Refusal>, place: &mut u64) -> u16
    requires { PlaceFits answer }
    ensures { GivenTo one_more answer place.old result place.new }
{
    give(answer.map(one_more), place)
}

pub fn give_named(
    answer: Result<Named, Refusal>,
    classes: &mut u32,
    attributes: &mut u32,
    named: &mut u64,
) -> u16
    ensures { GivenTo (λ x. x) answer (record { classes = classes.old; attributes = attributes.old; count = named.old }) result (record { classes = classes.new; attributes = attributes.new; count = named.new }) }
{
    let mut names = Named {
        classes: *classes,
        attributes: *attributes,
        count: *named,
    };
    let number = give(answer, &mut names);
    *classes = names.classes;
    *attributes = names.attributes;
    *named = names.count;
    number
}
