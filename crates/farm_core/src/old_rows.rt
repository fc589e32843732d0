//! The rows of the store that stand for the farm.

ghost use Rattle.std.specs.Prelude.{◌≡◌, ◌↔◌, true, false, not, Some, is_some, option_and_then, slice_get, IsTrue};
ghost use Rattle.std.specs.List.{list_any};
ghost use Rattle.farm_types.specs.Farm.{job_at, layer_at, sub_at};
ghost use Rattle.farm_types.specs.DependActs.{depend_at};
ghost use Rattle.farm_rows.specs.declared.farm_row.FarmRow.TheVariants as stored;
ghost use Rattle.farm_rows.specs.Changes.{is_mark, row_at, row_key, used_row};
ghost use Rattle.farm_rows.specs.Rows.{frame_row, head_row, is_unused};

use crate::farm::Farm;
use farm_books::Books;
use farm_rows::{
    FarmRow, FrameRow, HeadRow, OldRows, ROW_FORMAT, RowKey, is_same_alloc, is_same_depend,
    is_same_frame, is_same_host, is_same_job, is_same_layer, is_same_limit, is_same_show,
};
use farm_types::{
    AllocNo, AllocRow, DependNo, DependRow, HostNo, HostRow, JobRow, LayerRow, LimitNo, LimitRow,
    ShowNo, ShowRow, Slot, SlotRow, SubRow,
};

impl OldRows for Farm {
    ghost farm = { λ f. f };

    fn is_same(&self, row: &FarmRow) -> bool {
        self.holds(row)
    }

    fn has(&self, key: RowKey) -> bool {
        self.holds_key(key)
    }
}

impl Farm {
    // Whether the row of its key is this one.
    fn holds(&self, row: &FarmRow) -> bool
        ensures { IsTrue result ↔ (row_at self.now (row_key row.now) ≡ Some row.now) }
    {
        has_row(&self.books, row)
    }

    // Whether there is a row of the key.
    fn holds_key(&self, key: RowKey) -> bool
        ensures { result ≡ is_some (row_at self.now key) }
    {
        has_key(&self.books, key)
    }
}

// Whether the row of its key is this one.
fn has_row(books: &Books, row: &FarmRow) -> bool
    ensures { IsTrue result ↔ (row_at books.now.farm (row_key row.now) ≡ Some row.now) }
{
    match row {
        FarmRow::Head(head) => is_head(books, head),
        FarmRow::Show { show, row } => is_show(books, *show, row),
        FarmRow::Alloc { alloc, row } => is_alloc(books, *alloc, row),
        FarmRow::Sub(row) => is_sub(books, row),
        FarmRow::Host { host, row } => is_host(books, *host, row),
        FarmRow::Job(row) => is_job(books, row),
        FarmRow::Layer(row) => is_layer(books, row),
        FarmRow::Frame(row) => is_frame(books, row),
        FarmRow::Depend(row) => is_depend(books, row),
        FarmRow::Met(row) => is_met(books, row.depend, row.position),
        FarmRow::Limit { limit, row } => is_limit(books, *limit, row),
    }
}

// Whether there is a row of the key.
fn has_key(books: &Books, key: RowKey) -> bool
    ensures { result ≡ is_some (row_at books.now.farm key) }
{
    match key {
        RowKey::Head => books.is_recorded(),
        RowKey::Show { show } => books.show(show).is_some(),
        RowKey::Alloc { alloc } => books.allocation(alloc).is_some(),
        RowKey::Sub { sub } => books.sub(sub).is_some(),
        RowKey::Host { host } => books.host(host).is_some(),
        RowKey::Job { job } => books.job(job).is_some(),
        RowKey::Layer { job, place } => books.layer(job, place).is_some(),
        RowKey::Frame { slot } => has_frame(books, slot),
        RowKey::Depend { depend } => books.depend(depend).is_some(),
        RowKey::Met { depend, position } => is_met(books, depend, position),
        RowKey::Limit { limit } => has_limit(books, limit),
    }
}

/// The farm's own row.
pub(crate) fn head(books: &Books) -> HeadRow
    ensures { result ≡ head_row books.now.farm }
{
    HeadRow {
        format: ROW_FORMAT,
        moment: books.moment(),
        jobs: books.jobs().next_number(),
        finishes: books.jobs().next_finish(),
        depends: books.depends().next_number(),
    }
}

// Whether an entry has made the farm, and this is its own row.
fn is_head(books: &Books, row: &HeadRow) -> bool
    ensures { IsTrue result ↔ ((books.now.farm.recorded ≡ true) × (head_row books.now.farm ≡ row.now)) }
{
    books.is_recorded() && head(books) == *row
}

// Whether the show of that number is this one.
fn is_show(books: &Books, show: ShowNo, row: &ShowRow) -> bool
    ensures { IsTrue result ↔ (slice_get books.now.farm.shows show ≡ Some row.now) }
{
    match books.show(show) {
        None => false,
        Some(old) => is_same_show(old, row),
    }
}

// Whether the allocation of that number is this one.
fn is_alloc(books: &Books, alloc: AllocNo, row: &AllocRow) -> bool
    ensures { IsTrue result ↔ (slice_get books.now.farm.allocs alloc ≡ Some row.now) }
{
    match books.allocation(alloc) {
        None => false,
        Some(old) => is_same_alloc(old, row),
    }
}

// Whether the subscription of its number is this one.
fn is_sub(books: &Books, row: &SubRow) -> bool
    ensures { IsTrue result ↔ (sub_at books.now.farm row.now.sub ≡ Some row.now) }
{
    match books.sub(row.sub) {
        None => false,
        Some(old) => old == *row,
    }
}

// Whether the limit of that number is this one.
fn is_limit(books: &Books, limit: LimitNo, row: &LimitRow) -> bool
    ensures { IsTrue result ↔ (slice_get books.now.farm.limits limit ≡ Some row.now) }
{
    match books.limits().row(limit) {
        None => false,
        Some(old) => is_same_limit(old, row),
    }
}

// Whether there is a limit of that number.
fn has_limit(books: &Books, limit: LimitNo) -> bool
    ensures { result ≡ is_some (slice_get books.now.farm.limits limit) }
{
    books.limits().row(limit).is_some()
}

// Whether the host of that number is this one.
fn is_host(books: &Books, host: HostNo, row: &HostRow) -> bool
    ensures { IsTrue result ↔ (slice_get books.now.farm.hosts host ≡ Some row.now) }
{
    match books.host(host) {
        None => false,
        Some(old) => is_same_host(old, row),
    }
}

// Whether the job of its number is this one.
fn is_job(books: &Books, row: &JobRow) -> bool
    ensures { IsTrue result ↔ (job_at books.now.farm row.now.job ≡ Some row.now) }
{
    match books.job(row.job) {
        None => false,
        Some(old) => is_same_job(old, row),
    }
}

// Whether the layer at its place is this one.
fn is_layer(books: &Books, row: &LayerRow) -> bool
    ensures { IsTrue result ↔ (layer_at books.now.farm row.now.job row.now.place ≡ Some row.now) }
{
    match books.layer(row.job, row.place) {
        None => false,
        Some(old) => is_same_layer(old, row),
    }
}

// Whether this is what is stored of the slot.
fn is_frame(books: &Books, row: &FrameRow) -> bool
    ensures { IsTrue result ↔ (option_and_then (used_row row.now.slot) (slice_get books.now.farm.slots row.now.slot) ≡ Some (stored.Frame row.now)) }
{
    match books.slot(row.slot) {
        None => false,
        Some(old) => is_stored(row.slot, &old, row),
    }
}

// Whether something is stored of the slot.
fn has_frame(books: &Books, slot: Slot) -> bool
    ensures { result ≡ is_some (option_and_then (used_row slot) (slice_get books.now.farm.slots slot)) }
{
    match books.slot(slot) {
        None => false,
        Some(old) => is_used(&old),
    }
}

// Whether the depend of its number is this one.
fn is_depend(books: &Books, row: &DependRow) -> bool
    ensures { IsTrue result ↔ (depend_at books.now.farm row.now.depend ≡ Some row.now) }
{
    match books.depend(row.depend) {
        None => false,
        Some(old) => is_same_depend(old, row),
    }
}

// Whether the depend has a mark of that position.
fn is_met(books: &Books, depend: DependNo, position: u32) -> bool
    ensures { result ≡ list_any (is_mark depend position) books.now.farm.met }
{
    books.kept();
    books.depends().is_marked(depend, position)
}

// Whether the slot was used, and this is what is stored of it.
fn is_stored(slot: Slot, old: &SlotRow, row: &FrameRow) -> bool
    ensures { IsTrue result ↔ ((is_unused old.now ≡ false) × (frame_row slot old.now ≡ row.now)) }
{
    is_used(old) && is_same_frame(&FrameRow::of_slot(slot, old), row)
}

// Whether the slot has a frame, or isn't at version 0.
fn is_used(row: &SlotRow) -> bool
    ensures { result ≡ not (is_unused row.now) }
{
    row.frame.is_some() || row.version.0 != 0
}
