// The verdict of each ordered pair of views, in an array of arrays.
ghost use Rattle.std.specs.Prelude.{◌<◌};
ghost use Rattle.records.specs.Layout.{max_views};
ghost use Rattle.catalogue.specs.Order.{held_at};
ghost use Rattle.catalogue.specs.Answers.{Table, Verdicts};
ghost use Rattle.catalogue.specs.Helpers.{Rows, Row, in_row};

use crate::check::check;
use crate::pairs::rows;
use crate::sets::has;
use check_catalogue::{MAX_VIEWS, views};
use records::refusal::Refusal;
use std::array::from_fn;

// Whether view `i` is held by each view.
fn row(rows: &[u16], n: usize, i: usize) -> [bool; MAX_VIEWS]
    requires { Rows rows.now × (i < max_views) }
    ensures { Row (held_at n (in_row rows.now) i) result }
{
    from_fn(|j| (i < n) & ((j < n) & has(rows[i], j)))
}

fn table(rows: &[u16], n: usize) -> [[bool; MAX_VIEWS]; MAX_VIEWS]
    requires { Rows rows.now }
    ensures { Table (held_at n (in_row rows.now)) result }
{
    from_fn(
        |i|
            requires { Rows rows.now × (i < max_views) }
            ensures { Row (held_at n (in_row rows.entry.now) i) result }
        { row(rows, n, i) },
    )
}

pub fn verdicts(
    schema: &[u16],
    catalogue: &[u16],
) -> Result<[[bool; MAX_VIEWS]; MAX_VIEWS], Refusal>
    ensures { Verdicts schema.now catalogue.now result }
{
    check(schema, catalogue)?;
    let rows = rows(schema, catalogue);
    Ok(table(&rows, views(catalogue)))
}
