// The groups of views that hold each other, in order.
ghost use Rattle.catalogue.specs.Answers.{Ordering};

use crate::arrange::{Order, arrange};
use crate::check::check;
use crate::pairs::rows;
use check_catalogue::views;
use records::refusal::Refusal;

pub fn order(schema: &[u16], catalogue: &[u16]) -> Result<Order, Refusal>
    ensures { Ordering schema.now catalogue.now result }
{
    check(schema, catalogue)?;
    let rows = rows(schema, catalogue);
    Ok(arrange(&rows, views(catalogue)))
}
