//! What a request comes to.

use crate::query::Query;
use crate::report::Report;
use farm_types::Act;

/// What a request comes to: a report, which its round of bookings follows; another act of the farm; or a list, which changes
/// nothing.
#[derive(Debug, Drop)]
pub enum Asked {
    Report(Report),
    Act(Act),
    List(Query),
}
