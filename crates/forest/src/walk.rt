// The walk of the view from an object of the ground makes the values that the view's steps ask for. The item that ends at a
// place is read at the token before it. Of two operands the earlier one is walked first.
ghost use Rattle.std.specs.Prelude.{suc, ◌≤◌, ◌≡◌};
ghost use Rattle.records.specs.declared.token.Token.TheVariants.{Both, Common};
ghost use Rattle.records.specs.Layout.{view_steps};
ghost use Rattle.records.specs.SchemaRecord.{signature_of};
ghost use Rattle.records.specs.ConceptRecord.{token_at};
ghost use Rattle.records.specs.Helpers.Reading.{step_token};
ghost use Rattle.records.specs.SchemaRefusal.{AcceptedSchema};
ghost use Rattle.records.specs.ConceptRefusal.{AcceptedConcept};
ghost use Rattle.chase.specs.Bounds.{max_nodes};
ghost use Rattle.forest.specs.Kept.{Kept};
ghost use Rattle.forest.specs.Places.{heading};
ghost use Rattle.forest.specs.Walking.{CanWalk, CanTrek, Walked, Trekked, Walks};

use crate::make::make_for;
use crate::objects::OBJECTS;
use crate::places::{Here, Root, Step, begin, next};
use reading::start_of;
use records::token::{Token, token_at, tokens};

// The concept that ends at `end`. Returns how many objects there are then.
#[cycle(both_common_step_trek_walk)]
fn walk(
    schema: &[u16],
    view: &[u16],
    edges: &[u16],
    root: Root,
    end: usize,
    here: Here,
    objects: &mut [u64; OBJECTS],
) -> usize
    requires { CanWalk schema.now view.now edges.now objects.old root end here }
    ensures { Walked schema.now view.now edges.now objects.old root end here objects.new result }
{
    let at = end - 1;
    match token_at(view, at) {
        // Nothing is made.
        Token::Class(_) | Token::Everything | Token::Constant(_) | Token::Mark(_) => here.size,
        Token::Both => both(schema, view, edges, root, at, here, objects),
        Token::Reached => { trek(schema, view, edges, root, at, here, objects).size }
        Token::Common => common(schema, view, edges, root, at, here, objects),
        // A path's tokens end no concept.
        Token::Empty | Token::Forward(_) | Token::Backward(_) => here.size,
    }
}

// Both of two concepts, whose token stands at `at`.
#[cycle(both_common_step_trek_walk)]
fn both(
    schema: &[u16],
    view: &[u16],
    edges: &[u16],
    root: Root,
    at: usize,
    here: Here,
    objects: &mut [u64; OBJECTS],
) -> usize
    requires { CanWalk schema.now view.now edges.now objects.old root (suc at) here × (token_at view.now at ≡ Both) }
    ensures { Walked schema.now view.now edges.now objects.old root (suc at) here objects.new result }
{
    let n = walk(schema, view, edges, root, start_of(view, at), here, objects);
    let mut there = here;
    there.size = n;
    walk(schema, view, edges, root, at, there, objects)
}

// The two paths of a common object, whose token stands at `at`.
#[cycle(both_common_step_trek_walk)]
fn common(
    schema: &[u16],
    view: &[u16],
    edges: &[u16],
    root: Root,
    at: usize,
    here: Here,
    objects: &mut [u64; OBJECTS],
) -> usize
    requires { CanWalk schema.now view.now edges.now objects.old root (suc at) here × (token_at view.now at ≡ Common) }
    ensures { Walked schema.now view.now edges.now objects.old root (suc at) here objects.new result }
{
    let first = trek(schema, view, edges, root, start_of(view, at), here, objects);
    let mut there = here;
    there.size = first.size;
    let last = trek(schema, view, edges, root, at, there, objects);
    last.size
}

// The path that ends at `end`. Returns where the walk stands then.
#[cycle(both_common_step_trek_walk)]
fn trek(
    schema: &[u16],
    view: &[u16],
    edges: &[u16],
    root: Root,
    end: usize,
    here: Here,
    objects: &mut [u64; OBJECTS],
) -> Here
    requires { CanTrek schema.now view.now edges.now objects.old root end here }
    ensures { Trekked schema.now view.now edges.now objects.old root end here objects.new result }
{
    let at = end - 1;
    let (attribute, backward) = match token_at(view, at) {
        Token::Forward(attribute) => (attribute, false),
        Token::Backward(attribute) => (attribute, true),
        Token::Empty => return here,
        // A concept's tokens end no path.
        Token::Class(_)
        | Token::Everything
        | Token::Constant(_)
        | Token::Both
        | Token::Reached
        | Token::Common
        | Token::Mark(_) => return here,
    };
    let last = Step {
        at,
        attribute,
        backward,
    };
    step(schema, view, edges, root, last, here, objects)
}

// The path with a step at its end.
#[cycle(both_common_step_trek_walk)]
fn step(
    schema: &[u16],
    view: &[u16],
    edges: &[u16],
    root: Root,
    step: Step,
    here: Here,
    objects: &mut [u64; OBJECTS],
) -> Here
    requires { CanTrek schema.now view.now edges.now objects.old root (suc step.at) here × (token_at view.now step.at ≡ step_token (heading step) step.attribute) }
    ensures { Trekked schema.now view.now edges.now objects.old root (suc step.at) here objects.new result }
{
    let at = step.at;
    let mut there = trek(schema, view, edges, root, start_of(view, at), here, objects);
    let made = make_for(schema, edges, root, step, there, objects);
    there.size = made;
    let mut after = next(objects, root, step, there);
    let n = walk(schema, view, edges, root, at, after, objects);
    after.size = n;
    after
}

// The view is walked from each object of the ground. Returns how many objects there are then.
pub fn walks(
    schema: &[u16],
    view: &[u16],
    edges: &[u16],
    g: usize,
    objects: &mut [u64; OBJECTS],
) -> usize
    requires { AcceptedSchema schema.now × AcceptedConcept view_steps (signature_of schema.now) view.now × Kept g g objects.old × (g ≤ max_nodes) }
    ensures { Walks schema.now view.now edges.now objects.old g objects.new result }
{
    let end = tokens(view);
    let mut n = g;
    for start in 0..g {
        let root = Root { ground: g, start };
        n = walk(schema, view, edges, root, end, begin(n), objects);
    }
    n
}
