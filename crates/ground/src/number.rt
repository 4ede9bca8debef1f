// Objects have the numbers of the live nodes, in order: those that are their own representatives.
ghost use Rattle.std.specs.Prelude.{◌≡◌, map, ◌<◌, ◌≤◌, length};
ghost use Rattle.chase.specs.Bounds.{max_nodes};
ghost use Rattle.primary.specs.Words.{edge_of, EdgeIn, EdgesIn};
ghost use Rattle.ground.specs.Numbers.{Inside, live_in, object_in, renumber_in, renumber_word};

use primary::rules::PART;

pub fn live(reps: &[u32], n: usize) -> bool
    requires { n < length reps.now }
    ensures { result ≡ live_in reps.now n }
{
    reps[n] as usize == n
}

// The object of a node: how many live nodes stand before its representative.
pub fn object_of(reps: &[u32], n: usize) -> usize
    requires { Inside reps.now × (n < length reps.now) }
    ensures { result ≡ object_in reps.now n }
{
    (0..reps[n] as usize).filter(|i| live(reps, *i)).count()
}

// An edge between nodes as one between their objects.
fn renumbered(reps: &[u32], word: u16) -> u16
    requires { Inside reps.now × (length reps.now ≤ max_nodes) × EdgeIn (length reps.now) word }
    ensures { result ≡ renumber_word reps.now word }
{
    let edge = usize::from(word);
    let attribute = edge / PART / PART;
    let origin = object_of(reps, edge / PART % PART);
    let target = object_of(reps, edge % PART);
    ((attribute * PART + origin) * PART + target) as u16
}

pub fn renumber(reps: &[u32], edges: &mut [u16])
    requires { Inside reps.now × (length reps.now ≤ max_nodes) × EdgesIn (length reps.now) edges.old }
    ensures { map edge_of edges.new ≡ map (renumber_in reps.now) (map edge_of edges.old) }
{
    for edge in edges.iter_mut() {
        *edge = renumbered(reps, *edge);
    }
}
