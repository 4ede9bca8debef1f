// A list of words with room for the facts of a query, and the three kinds of fact that it may hold. A fact of another kind
// leaves it as it was.
ghost use Rattle.std.specs.Prelude.{◌≡◌, ◌≤◌, ◌<◌, ◌^◌};
ghost use Rattle.records.specs.Concept.{forward, direction_of};
ghost use Rattle.records.specs.Layout.{max_marks, max_tokens};
ghost use Rattle.chase.specs.Bounds.{max_nodes};
ghost use Rattle.chase.specs.Facts.{at_node, of_mark, member, equal, related};
ghost use Rattle.primary.specs.Words.{part};
ghost use Rattle.asked.specs.Listed.{listed, side_of, Room, pushed, Grown};

use primary::rules::{MAX_NODES, PART};
use records::token::MAX_TOKENS;

#[derive(Clone, Copy)]
pub enum Kind {
    Members,
    Equations,
    Edges,
}

// There are no more facts than tokens.
#[derive(Clone, Copy)]
pub struct Words {
    pub count: usize,
    pub words: [u16; MAX_TOKENS],
}

impl Words {
    #[tactic(auto, unfolding(crate::specs::Listed::pushed))]
    fn push(mut self, word: usize) -> Words
        requires room { Room self }
        requires word_bound { word < 2 ^ 16 }
        ensures { result ≡ pushed self word }
    {
        self.words[self.count] = word as u16;
        self.count += 1;
        self
    }

    // The words in use.
    pub fn as_slice(&self) -> &[u16]
        requires { self.now.count ≤ max_tokens }
        ensures { result.now ≡ listed self.now }
    {
        &self.words[..self.count]
    }
}

// The node is in the class.
pub fn add_member(kind: Kind, class: usize, node: usize, list: Words) -> Words
    requires room { Room list }
    requires class_lt_part { (class < part) × (node < part) }
    ensures { Grown kind (member class node) 0 1 list result }
{
    match kind {
        Kind::Members => list.push(class * PART + node),
        Kind::Equations | Kind::Edges => list,
    }
}

// The node is what stands on the right: a node or, above all nodes, a mark.
fn add_side(kind: Kind, left: usize, right: usize, list: Words) -> Words
    requires room { Room list }
    requires left_lt_part { (left < part) × (right < part) }
    ensures { Grown kind (equal left (side_of right)) 0 1 list result }
{
    match kind {
        Kind::Equations => list.push(left * PART + right),
        Kind::Members | Kind::Edges => list,
    }
}

// The two nodes are one object.
pub fn add_equation(kind: Kind, left: usize, right: usize, list: Words) -> Words
    requires room { Room list }
    requires left_lt_part { (left < part) × (right < max_nodes) }
    ensures { Grown kind (equal left (at_node right)) 0 1 list result }
{
    add_side(kind, left, right, list)
}

// The mark stands at the node.
pub fn add_mark(kind: Kind, mark: usize, node: usize, list: Words) -> Words
    requires room { Room list }
    requires mark_lt_max_marks { (mark < max_marks) × (node < part) }
    ensures { Grown kind (equal node (of_mark mark)) 0 1 list result }
{
    add_side(kind, node, MAX_NODES + mark, list)
}

// The two nodes are a pair of the attribute.
fn add_pair(kind: Kind, attribute: usize, origin: usize, target: usize, list: Words) -> Words
    requires room { Room list }
    requires attribute_lt_part { (attribute < part) × (origin < part) × (target < part) }
    ensures { Grown kind (related forward attribute origin target) 0 1 list result }
{
    match kind {
        Kind::Edges => list.push((attribute * PART + origin) * PART + target),
        Kind::Members | Kind::Equations => list,
    }
}

// A step leads from the one node to the other.
pub fn add_edge(
    kind: Kind,
    backward: bool,
    attribute: usize,
    from: usize,
    to: usize,
    list: Words,
) -> Words
    requires room { Room list }
    requires attribute_lt_part { (attribute < part) × (from < part) × (to < part) }
    ensures { Grown kind (related (direction_of backward) attribute from to) 0 1 list result }
{
    if backward {
        return add_pair(kind, attribute, to, from, list);
    }
    add_pair(kind, attribute, from, to, list)
}
