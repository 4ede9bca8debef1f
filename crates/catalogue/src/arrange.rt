// The order of the groups, from the rows of n views: row i is the set of the views that hold view i.
ghost use Rattle.std.specs.Prelude.{◌&&◌, cond, ltb, ◌≡◌, ◌≤◌, ◌<◌};
ghost use Rattle.records.specs.Finite.{set_of};
ghost use Rattle.records.specs.Layout.{max_views};
ghost use Rattle.catalogue.specs.Order.{together as together_in, narrower, ready as ready_in, next as next_in};
ghost use Rattle.catalogue.specs.Answers.{Arranged};
ghost use Rattle.catalogue.specs.Helpers.{in_row, unplaced, Rows};

use crate::sets::{has, only_if};
use check_catalogue::MAX_VIEWS;

#[derive(Clone, Copy)]
pub struct Order {
    // The set of the views in each group, and 0 after the last.
    pub groups: [u16; MAX_VIEWS],
    pub count: u64,
}

fn together(rows: &[u16], i: usize, j: usize) -> bool
    requires { Rows rows.now × (i < max_views) × (j < max_views) }
    ensures { result ≡ together_in (in_row rows.now) i j }
{
    has(rows[i], j) & has(rows[j], i)
}

// The group of view `i`.
fn group(rows: &[u16], n: usize, i: usize) -> u16
    requires { Rows rows.now × (n ≤ max_views) × (i < max_views) }
    ensures { result ≡ set_of n (together_in (in_row rows.now) i) }
{
    (0..n).map(|j| only_if(together(rows, i, j), j)).sum()
}

// View `j` is still to come, and narrower than view `i`.
fn precedes(rows: &[u16], placed: u16, j: usize, i: usize) -> bool
    requires { Rows rows.now × (j < max_views) × (i < max_views) }
    ensures { result ≡ (unplaced placed j && narrower (in_row rows.now) j i) }
{
    !has(placed, j) & (has(rows[j], i) & !has(rows[i], j))
}

// View `i` is still to come, and no narrower one is.
fn ready(rows: &[u16], n: usize, placed: u16, i: usize) -> bool
    requires { Rows rows.now × (n ≤ max_views) × (i < max_views) }
    ensures { result ≡ ready_in n (in_row rows.now) (unplaced placed) i }
{
    !has(placed, i) && !(0..n).any(|j| precedes(rows, placed, j, i))
}

// The lowest view of the next group, if there is one.
fn next(rows: &[u16], n: usize, placed: u16) -> Option<usize>
    requires { Rows rows.now × (n ≤ max_views) }
    ensures { let lowest = next_in n (in_row rows.now) (unplaced placed) in result ≡ cond (ltb lowest n) (Some lowest) None }
{
    (0..n).find(|i| ready(rows, n, placed, *i))
}

pub fn arrange(rows: &[u16], n: usize) -> Order
    requires { Rows rows.now × (n ≤ max_views) }
    ensures { Arranged n (in_row rows.now) result }
{
    let mut groups = [0u16; MAX_VIEWS];
    let mut placed = 0;
    for k in 0..n {
        let Some(lowest) = next(rows, n, placed) else {
            return Order {
                groups,
                count: k as u64,
            };
        };
        let views = group(rows, n, lowest);
        groups[k] = views;
        placed |= views;
    }
    Order {
        groups,
        count: n as u64,
    }
}
