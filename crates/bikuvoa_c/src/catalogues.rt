// A catalogue of views: which are held by which, and their groups in order.
ghost use Rattle.bikuvoa_c.specs.Catalogued.{Cataloguing, CataloguedTo};

use c_answers::given::give;
use catalogue::arrange::arrange;
use catalogue::check::check;
use check_catalogue::MAX_VIEWS;
use encoding::words::put;
use records::refusal::Refusal;

// Returns the number of groups.
fn catalogued(
    schema: &[u16],
    views: &[u16],
    rows: &mut [u16],
    order: &mut [u16],
) -> Result<u64, Refusal>
    ensures { Cataloguing schema.now views.now rows.old order.old rows.new order.new result }
{
    check(schema, views)?;
    if (rows.len() < MAX_VIEWS) | (order.len() < MAX_VIEWS) {
        return Err(Refusal::LentWords);
    }
    let held = catalogue::pairs::rows(schema, views);
    let arranged = arrange(&held, check_catalogue::views(views));
    let found = arranged.groups;
    put(&held, rows);
    put(&found, order);
    Ok(arranged.count)
}

#[unsafe(no_mangle)]
pub extern "C" fn bikuvoa_catalogue(
    schema: &[u16],
    views: &[u16],
    rows: &mut [u16],
    order: &mut [u16],
    groups: &mut u64,
) -> u16
    ensures { CataloguedTo schema.now views.now rows.old order.old groups.old result rows.new order.new groups.new }
{
    give(catalogued(schema, views, rows, order), groups)
}
