//! Which row of the store.

use farm_types::{AllocNo, DependNo, HostNo, JobNo, LimitNo, ShowNo, Slot, SubNo};

/// The row of a kind and a number: a layer's by its job and its place there, a met group's by its depend and its position.
#[derive(Clone, Copy, Debug, PartialEq, Eq)]
pub enum RowKey {
    Head,
    Show { show: ShowNo },
    Alloc { alloc: AllocNo },
    Sub { sub: SubNo },
    Host { host: HostNo },
    Job { job: JobNo },
    Layer { job: JobNo, place: u32 },
    Frame { slot: Slot },
    Depend { depend: DependNo },
    Met { depend: DependNo, position: u32 },
    Limit { limit: LimitNo },
}
