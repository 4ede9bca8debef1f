// One round of all rules, and the weight by which rounds are seen to have an end.
ghost use Rattle.std.specs.Prelude.{◌≡◌, map, ◌≤◌, length};
ghost use Rattle.records.specs.SchemaRecord.{schema_of};
ghost use Rattle.records.specs.SchemaRefusal.{AcceptedSchema};
ghost use Rattle.classes.specs.Domains.{DomainTable};
ghost use Rattle.chase.specs.Primary.{weight as weight_of};
ghost use Rattle.primary.specs.Formed.{prime, Formed, Becomes};
ghost use Rattle.chase.specs.Bounds.{max_nodes};
ghost use Rattle.primary.specs.Words.{member_of, tie_of, edge_of, FactsIn};
ghost use Rattle.primary.specs.Pass.{pass_on, Sum};

use crate::rules::{assert_all, equate_all, lift_all, type_all, unify_all};
use records::schema::MAX_ATTRIBUTES;

// The table has the domains of all attributes; they are the same for each pass.
pub fn pass(
    schema: &[u16],
    table: &[u32; MAX_ATTRIBUTES],
    members: &[u16],
    ties: &[u16],
    edges: &[u16],
    reps: &mut [u32],
    sets: &mut [u32],
)
    requires { AcceptedSchema schema.now × DomainTable schema.now table.now × Formed reps.old sets.old × FactsIn (length reps.old) members.now ties.now edges.now }
    ensures { Becomes (length reps.old) reps.new sets.new (pass_on (schema_of schema.now) (map member_of members.now) (map tie_of ties.now) (map edge_of edges.now) (length reps.old) (prime reps.old sets.old)) }
{
    equate_all(ties, reps, sets);
    assert_all(members, reps, sets);
    lift_all(schema, table, reps, sets);
    type_all(schema, table, edges, reps, sets);
    unify_all(schema, edges, reps, sets);
}

fn total(l: &[u32]) -> u64
    requires { length l.now ≤ max_nodes }
    ensures { Sum l.now result }
{
    l.iter().map(|x| u64::from(*x)).sum()
}

pub fn weight(reps: &[u32], sets: &[u32]) -> u64
    requires { (length reps.now ≤ max_nodes) × (length sets.now ≤ max_nodes) }
    ensures { result ≡ weight_of (prime reps.now sets.now) }
{
    total(reps) + total(sets)
}
