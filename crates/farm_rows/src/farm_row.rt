//! A row of the store.

ghost use Rattle.std.specs.Prelude.{◌≡◌};
ghost use Rattle.farm_rows.specs.Changes.{row_key};
ghost use Rattle.farm_rows.specs.Rows.{row_id, row_kind};

use crate::frame_row::FrameRow;
use crate::head_row::HeadRow;
use crate::ids::{group_id, layer_id};
use crate::row_key::RowKey;
use farm_types::{
    AllocNo, AllocRow, DependRow, HostNo, HostRow, JobRow, LayerRow, LimitNo, LimitRow, MetRow,
    ShowNo, ShowRow, SubRow,
};

/// A row of the store, by its kind. Rows of shows, allocations, hosts and limits don't have their numbers in them.
#[derive(Debug, Drop)]
pub enum FarmRow {
    Head(HeadRow),
    Show { show: ShowNo, row: ShowRow },
    Alloc { alloc: AllocNo, row: AllocRow },
    Sub(SubRow),
    Host { host: HostNo, row: HostRow },
    Job(JobRow),
    Layer(LayerRow),
    Frame(FrameRow),
    Depend(DependRow),
    Met(MetRow),
    Limit { limit: LimitNo, row: LimitRow },
}

impl FarmRow {
    /// The number of the row's kind, from 1 for the farm's own row to 11 for a limit.
    pub fn kind(&self) -> u8
        ensures { result ≡ row_kind self.now }
    {
        match self {
            FarmRow::Head(_) => 1,
            FarmRow::Show { .. } => 2,
            FarmRow::Alloc { .. } => 3,
            FarmRow::Sub(_) => 4,
            FarmRow::Host { .. } => 5,
            FarmRow::Job(_) => 6,
            FarmRow::Layer(_) => 7,
            FarmRow::Frame(_) => 8,
            FarmRow::Depend(_) => 9,
            FarmRow::Met(_) => 10,
            FarmRow::Limit { .. } => 11,
        }
    }

    /// The row's number among those of its kind, 0 for the farm's own.
    pub fn id(&self) -> u64
        ensures { result ≡ row_id self.now }
    {
        match self {
            FarmRow::Head(_) => 0,
            FarmRow::Show { show, .. } => u64::from(show.0),
            FarmRow::Alloc { alloc, .. } => u64::from(alloc.0),
            FarmRow::Sub(row) => u64::from(row.sub.0),
            FarmRow::Host { host, .. } => u64::from(host.0),
            FarmRow::Job(row) => u64::from(row.job.0),
            FarmRow::Layer(row) => layer_id(row.job.0, row.place),
            FarmRow::Frame(row) => u64::from(row.slot.0),
            FarmRow::Depend(row) => u64::from(row.depend.0),
            FarmRow::Met(row) => group_id(row.depend.0, row.position),
            FarmRow::Limit { limit, .. } => u64::from(limit.0),
        }
    }

    /// The row's key.
    pub fn key(&self) -> RowKey
        ensures { result ≡ row_key self.now }
    {
        match self {
            FarmRow::Head(_) => RowKey::Head,
            FarmRow::Show { show, .. } => RowKey::Show { show: *show },
            FarmRow::Alloc { alloc, .. } => RowKey::Alloc { alloc: *alloc },
            FarmRow::Sub(row) => RowKey::Sub { sub: row.sub },
            FarmRow::Host { host, .. } => RowKey::Host { host: *host },
            FarmRow::Job(row) => RowKey::Job { job: row.job },
            FarmRow::Layer(row) => RowKey::Layer {
                job: row.job,
                place: row.place,
            },
            FarmRow::Frame(row) => RowKey::Frame { slot: row.slot },
            FarmRow::Depend(row) => RowKey::Depend { depend: row.depend },
            FarmRow::Met(row) => RowKey::Met {
                depend: row.depend,
                position: row.position,
            },
            FarmRow::Limit { limit, .. } => RowKey::Limit { limit: *limit },
        }
    }
}
