//! A host's report.

use farm_types::{Attempt, HeardAct, Items};

/// What a host tells: what its entry records, and the attempts that it runs, in the order of its list.
#[derive(Debug, Drop)]
pub struct Report {
    pub heard: HeardAct,
    pub running: Items<Attempt>,
}
