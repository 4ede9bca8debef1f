// Nodes get classes, and nodes that are one object are merged.
ghost use Rattle.std.specs.Prelude.{◌≡◌, map, ◌<◌, length};
ghost use Rattle.chase.specs.Primary.{set_of, add as add_to, join as join_in, merge as merge_in};
ghost use Rattle.primary.specs.Formed.{prime, moved as moved_to, Formed, Becomes};

// The classes of a node: those at its representative.
pub fn set_of(reps: &[u32], sets: &[u32], n: usize) -> u32
    requires { Formed reps.now sets.now × (n < length reps.now) }
    ensures { result ≡ set_of (prime reps.now sets.now) n }
{
    sets[reps[n] as usize]
}

// More classes at a node.
pub fn add(reps: &[u32], sets: &mut [u32], n: usize, c: u32)
    requires { Formed reps.now sets.old × (n < length reps.now) }
    ensures { Becomes (length reps.now) reps.now sets.new (add_to n c (prime reps.now sets.old)) }
{
    sets[reps[n] as usize] |= c;
}

fn moved(low: u32, high: u32, rep: u32) -> u32
    ensures { result ≡ moved_to low high rep }
{
    if rep == low { high } else { rep }
}

fn move_all(reps: &mut [u32], low: u32, high: u32)
    ensures { reps.new ≡ map (moved_to low high) reps.old }
{
    for rep in reps.iter_mut() {
        *rep = moved(low, high, *rep);
    }
}

// The nodes of representative `low` go to representative `high`.
fn join(reps: &mut [u32], sets: &mut [u32], low: u32, high: u32)
    requires { Formed reps.old sets.old × (low < length reps.old) × (high < length reps.old) }
    ensures { Becomes (length reps.old) reps.new sets.new (join_in low high (prime reps.old sets.old)) }
{
    move_all(reps, low, high);
    sets[high as usize] |= sets[low as usize];
}

// The two nodes are one object. The higher representative stays.
pub fn merge(reps: &mut [u32], sets: &mut [u32], n: usize, m: usize)
    requires { Formed reps.old sets.old × (n < length reps.old) × (m < length reps.old) }
    ensures { Becomes (length reps.old) reps.new sets.new (merge_in n m (prime reps.old sets.old)) }
{
    let a = reps[n];
    let b = reps[m];
    if a != b {
        join(reps, sets, a.min(b), a.max(b));
    }
}
