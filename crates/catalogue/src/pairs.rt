// Which views hold which. A pair that follows from those known needs no decision: every view is held by itself, and what is held
// by a second that is held by a third is held by the third.
ghost use Rattle.std.specs.Prelude.{◌≡◌, ℕ, ◌≤◌, ◌<◌};
ghost use Rattle.std.proofs.Math.Bool.{So};
ghost use Rattle.records.specs.Layout.{max_views};
ghost use Rattle.records.specs.CatalogueRecord.{views as views_in, view_at};
ghost use Rattle.decide.specs.Holding.{Tells};
ghost use Rattle.catalogue.specs.Helpers.{Rows, joined as joined_to, Joined, Alone, refutes, Accepted, settled, Known, Grown, HeldRows};

use crate::sets::{has, meets, only_if};
use check_catalogue::{MAX_VIEWS, view_at, views};
use decide::held::held;
use std::array::from_fn;

// The row, with all of `above` if view `i` is in it.
#[tactic(auto, unfolding(crate::specs::Helpers::joined))]
fn joined(row: u16, i: usize, above: u16) -> u16
    requires { i < max_views }
    ensures { result ≡ joined_to i above row }
{
    if has(row, i) { row | above } else { row }
}

// View `i` is held by view `j`: then each view that `i` holds is held by each that holds `j`.
fn add_held(rows: &mut [u16], n: usize, i: usize, j: usize)
    requires { Rows rows.old × (n ≤ max_views) × (i < max_views) × (j < max_views) }
    ensures { Joined n i j rows.old rows.new }
{
    let above = rows[j];
    for row in &mut rows[..n] {
        *row = joined(*row, i, above);
    }
}

// View `i` cannot be held by view `j`: a view that `i` holds is open to one that holds `j`.
fn refuted(rows: &[u16], opens: &[u16], n: usize, i: usize, j: usize) -> bool
    requires { Rows rows.now × Rows opens.now × (n ≤ max_views) × (i < max_views) × (j < max_views) }
    ensures { result ≡ refutes n rows.now opens.now i j }
{
    let above = rows[j];
    (0..n).any(|a| has(rows[a], i) & meets(opens[a], above))
}

// Whether view `i` is held by view `j`, where that is not known.
fn ask(schema: &[u16], catalogue: &[u16], rows: &[u16], opens: &[u16], i: usize, j: usize) -> bool
    requires { Known schema.now catalogue.now rows.now opens.now × (i < views_in catalogue.now) × (j < views_in catalogue.now) }
    ensures { Tells schema.now (view_at catalogue.now i) (view_at catalogue.now j) result }
{
    if refuted(rows, opens, views(catalogue), i, j) {
        return false;
    }
    held(schema, view_at(catalogue, i), view_at(catalogue, j))
}

fn settle(
    schema: &[u16],
    catalogue: &[u16],
    i: usize,
    j: usize,
    rows: &mut [u16],
    opens: &mut [u16],
)
    requires { Known schema.now catalogue.now rows.old opens.old × (i < views_in catalogue.now) × (j < views_in catalogue.now) }
    ensures grown { Grown schema.now catalogue.now rows.old opens.old rows.new opens.new }
    ensures told { So (settled rows.new opens.new i j) }
{
    if has(rows[i], j) {
        return;
    }
    if ask(schema, catalogue, rows, opens, i, j) {
        add_held(rows, views(catalogue), i, j);
        return;
    }
    opens[i] |= only_if(true, j);
}

// View `j` with each view before it. The nearest comes first: in a catalogue that is in order already the rest follows.
fn compare(schema: &[u16], catalogue: &[u16], rows: &mut [u16], opens: &mut [u16], j: usize)
    requires { Known schema.now catalogue.now rows.old opens.old × (j < views_in catalogue.now) }
    ensures grown { Grown schema.now catalogue.now rows.old opens.old rows.new opens.new }
    ensures told { (i : ℕ) → i < j → So (settled rows.new opens.new i j) × So (settled rows.new opens.new j i) }
{
    for i in (0..j).rev() {
        settle(schema, catalogue, i, j, rows, opens);
        settle(schema, catalogue, j, i, rows, opens);
    }
}

fn settle_all(schema: &[u16], catalogue: &[u16], rows: &mut [u16], opens: &mut [u16])
    requires { Known schema.now catalogue.now rows.old opens.old }
    ensures { HeldRows schema.now catalogue.now rows.new }
{
    let n = views(catalogue);
    for j in 0..n {
        compare(schema, catalogue, rows, opens, j);
    }
}

// Each view alone holds itself.
fn begin(n: usize) -> [u16; MAX_VIEWS]
    requires { n ≤ max_views }
    ensures { Alone n result }
{
    from_fn(|i| only_if(i < n, i))
}

// Row i is the set of the views that hold view i. The rows at or above the count are empty.
pub fn rows(schema: &[u16], catalogue: &[u16]) -> [u16; MAX_VIEWS]
    requires { Accepted schema.now catalogue.now }
    ensures { HeldRows schema.now catalogue.now result }
{
    let mut rows = begin(views(catalogue));
    let mut opens = [0u16; MAX_VIEWS];
    settle_all(schema, catalogue, &mut rows, &mut opens);
    rows
}
