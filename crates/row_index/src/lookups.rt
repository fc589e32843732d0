//! Jobs and layers by their numbers, which rise.

ghost use Rattle.std.specs.Prelude.{◌≡◌, ◌≤◌, ◌<◌, ◌==◌, ◌&&◌, ◌+◌, ◌*◌, ℕ, true, drop, find, length, option_copied, slice_get, slice_index_or, take};
ghost use Rattle.std.specs.List.{list_all, position_or_len};
ghost use Rattle.farm_types.specs.declared.rows.LayerRow.{LayerRow};
ghost use Rattle.farm_types.specs.Farm.{layers_of, layer_in};
ghost use Rattle.farm_types.specs.Rising.{IsRising, job_key, layer_key};
ghost use Rattle.row_index.specs.Index.{is_placed_below};
ghost use Rattle.farm_types.specs.declared.limits.TheConstants.{MOST_LAYERS};

use farm_rows::LAYER_IDS;
use farm_types::{JobNo, JobRow, LayerRow, MOST_LAYERS};

/// The place of a job, and how many there are where it isn't there.
pub fn place_of_job(jobs: &[JobRow], job: JobNo) -> usize
    requires rise { (high : ℕ) × IsRising job_key 0 jobs.now high }
    ensures { result ≡ position_or_len (λ j. j.job == job) jobs.now }
{
    job_place(jobs, job.0)
}

// The place of a job of that number.
fn job_place(jobs: &[JobRow], job: u32) -> usize
    requires rise { (high : ℕ) × IsRising job_key 0 jobs.now high }
    ensures { result ≡ position_or_len (λ j. j.job == job) jobs.now }
{
    jobs.binary_search_by_key(&job, |row| row.job.0)
        .unwrap_or(jobs.len())
}

/// The job of that number.
pub fn job_in(jobs: &[JobRow], job: JobNo) -> Option<&JobRow>
    requires rise { (high : ℕ) × IsRising job_key 0 jobs.now high }
    ensures { option_copied result ≡ find (λ j. j.job == job) jobs.now }
{
    row_at(jobs, place_of_job(jobs, job))
}

/// The row at a place.
pub fn row_at<T>(rows: &[T], at: usize) -> Option<&T>
    ensures { option_copied result ≡ slice_get rows.now at }
{
    rows.get(at)
}

// The place of the layer of a key, and how many there are where it isn't there.
fn layer_place(layers: &[LayerRow], key: u64) -> usize
    requires rise { (high : ℕ) × IsRising layer_key 0 layers.now high }
    ensures { result ≡ position_or_len (λ l. layer_key l == key) layers.now }
{
    layers
        .binary_search_by_key(&key, |row| key_of(row))
        .unwrap_or(layers.len())
}

// A layer's key.
fn key_of(row: &LayerRow) -> u64
    ensures { result ≡ layer_key row.now }
{
    layer_key(row.job, row.place)
}

/// The key of a layer by its job and its place there.
pub fn layer_key(job: JobNo, place: u32) -> u64
    ensures { result ≡ MOST_LAYERS * job + place }
{
    LAYER_IDS * u64::from(job.0) + u64::from(place)
}

/// The layer at a place of a job, counted among all layers, and how many there are where it isn't there.
pub fn layer_at(layers: &[LayerRow], job: JobNo, place: u32) -> usize
    requires rise { (high : ℕ) × IsRising layer_key 0 layers.now high }
    requires places { list_all is_placed_below layers.now ≡ true }
    ensures { result ≡ position_or_len (λ l. l.job == job && l.place == place) layers.now }
{
    if place >= MOST_LAYERS {
        return layers.len();
    }
    layer_place(layers, layer_key(job, place))
}

/// The layer at a place of a job.
pub fn layer_in(layers: &[LayerRow], job: JobNo, place: u32) -> Option<&LayerRow>
    requires rise { (high : ℕ) × IsRising layer_key 0 layers.now high }
    requires places { list_all is_placed_below layers.now ≡ true }
    ensures { option_copied result ≡ layer_in layers.now job place }
{
    row_at(layers, layer_at(layers, job, place))
}

/// Where the layers of a job begin, and how many there are.
pub fn layer_bounds(layers: &[LayerRow], job: JobNo) -> (usize, usize)
    requires rise { (high : ℕ) × IsRising layer_key 0 layers.now high }
    requires places { list_all is_placed_below layers.now ≡ true }
    ensures within { result.0 + result.1 ≤ length layers.now }
    ensures layers { take result.1 (drop result.0 layers.now) ≡ layers_of layers.now job }
{
    let key = layer_key(job, 0);
    let first = count_below(layers, key);
    let end = count_below(layers, key + LAYER_IDS);
    (first, end.saturating_sub(first))
}

// How many layers have a key below one.
fn count_below(layers: &[LayerRow], key: u64) -> usize
    requires rise { (high : ℕ) × IsRising layer_key 0 layers.now high }
    ensures within { result ≤ length layers.now }
    ensures below { (i : ℕ) (d : LayerRow) → i < result → layer_key (slice_index_or layers.now i d) < key }
    ensures above { (i : ℕ) (d : LayerRow) → result ≤ i → i < length layers.now → key ≤ layer_key (slice_index_or layers.now i d) }
{
    layers.partition_point(|row| key_of(row) < key)
}
