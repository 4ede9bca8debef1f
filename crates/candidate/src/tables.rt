// What is looked up of an attribute, made by one pass: the values made, and the objects from which the query has a pair.
ghost use Rattle.std.specs.Prelude.{◌≡◌, false, get_or};
ghost use Rattle.forest.specs.Kept.{Kept};
ghost use Rattle.candidate.specs.Tables.{Kids, Origins};

use forest::objects::{OBJECTS, parent};
use primary::rules::PART;

// The values made of the attribute, each at the place of its maker.
pub fn kids(
    objects: &[u64; OBJECTS],
    g: usize,
    n: usize,
    attribute: usize,
) -> [Option<u16>; OBJECTS]
    requires { Kept g n objects.now }
    ensures { Kids g n objects.now attribute result }
{
    let mut table = [None; OBJECTS];
    for e in g..n {
        if let Some(maker) = parent(objects, g, n, attribute, e) {
            table[maker] = Some(e as u16);
        }
    }
    table
}

// The objects from which the query has a pair of the attribute. Its edges name objects below PART only.
pub fn origins(edges: &[u16], attribute: usize) -> [bool; PART]
    ensures { Origins edges.now attribute result }
{
    let mut table = [false; PART];
    for &edge in edges {
        let w = usize::from(edge);
        let d = w / PART % PART;
        table[d] |= w / PART / PART == attribute;
    }
    table
}

// The object is in the table.
pub fn is_origin(table: &[bool; PART], d: usize) -> bool
    ensures { result ≡ get_or table.now d false }
{
    if d >= PART {
        return false;
    }
    table[d]
}
