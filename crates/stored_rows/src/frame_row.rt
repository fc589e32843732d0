//! Rows of frames.

ghost use Rattle.std.specs.Prelude.{◌≡◌, ◌==◌, ◌&&◌, ◌≤◌, ◌<◌, ◌+◌, ◌^◌, ℕ, true, not, is_some, length, nat_le, slice_get, option_copied, option_map, IfSome};
ghost use Rattle.std.specs.List.{list_all, list_any, position_or_len};
ghost use Rattle.std.specs.Ordering.{int_eq};
ghost use Rattle.std.specs.Vec.{vec_capacity};
ghost use Rattle.farm_types.specs.declared.limits.TheConstants.{MOST_FRAMES, SLOT_LIMIT};
ghost use Rattle.farm_types.specs.Booking.{is_up};
ghost use Rattle.farm_types.specs.Depends.{is_done_state};
ghost use Rattle.farm_types.specs.Farm.{changed_at, for_some, is_placed, job_at, layer_at, slot_from};
ghost use Rattle.farm_types.specs.Rising.{IsRising, job_key, layer_key};
ghost use Rattle.farm_types.specs.Sums.{total_at, used_cores, used_memory};
ghost use Rattle.farm_rows.specs.declared.farm_row.FarmRow.TheVariants as kind;
ghost use Rattle.farm_rows.specs.Recovery.{attempt_at, attempt_fits, comes_after, frame_fits, frame_of, host_takes, key_of};
ghost use Rattle.farm_rows.specs.Recovery.{numbers_at, position_of, room_on, slot_fits, slot_row, taken_fits, with_slot};
ghost use Rattle.row_index.specs.Index.{found_with, is_placed_below};
ghost use Rattle.stored_rows.specs.Known.{HasRoom, is_free, layer_known, place_or, with_attempt, with_found, with_left};
ghost use Rattle.stored_rows.specs.Told.{Accepts, told_with};

use crate::stored_rows::StoredRows;
use farm_rows::{FrameRow, StoredFrame, StoredState};
use farm_types::{
    Frame, FrameState, HostNo, HostRow, JobNo, JobRow, LAST_VERSION, LayerRow, MOST_RETRIES,
    ProcRow, SLOT_LIMIT, Slot, SlotRow, Version,
};
use row_index::{
    KnownHosts, KnownJobs, KnownLayer, has_sub, job_in, layer_at, layer_in, place_of_job, row_at,
    sub_between,
};

impl StoredRows {
    /// Takes the row of a frame.
    pub(crate) fn add_frame(&mut self, row: &FrameRow) -> bool
        requires after { comes_after self.old.last (key_of (kind.Frame row.now)) ≡ true }
        ensures { Accepts result self.old (kind.Frame row.now) self.new }
    {
        if !(self.lists.recorded && self.slot_fits(row)) {
            return false;
        }
        self.push_frame(row);
        true
    }

    // Whether it fits.
    fn slot_fits(&self, row: &FrameRow) -> bool
        ensures { result ≡ slot_fits self.now.farm row.now }
    {
        row.slot.0 < SLOT_LIMIT
            && (row.version.0 <= LAST_VERSION && self.taken_fits(&row.version, &row.frame))
    }

    // Whether the slot's frame fits, or the slot was used.
    fn taken_fits(&self, version: &Version, frame: &Option<StoredFrame>) -> bool
        ensures { result ≡ taken_fits self.now.farm version.now frame.now }
    {
        match frame {
            None => 0 < version.0,
            Some(frame) => self.frame_fits(version, frame),
        }
    }

    // Whether the frame fits.
    fn frame_fits(&self, version: &Version, frame: &StoredFrame) -> bool
        ensures { result ≡ frame_fits self.now.farm version.now frame.now }
    {
        self.has_place(frame)
            && (frame.retries <= MOST_RETRIES && self.attempt_fits(version, frame))
    }

    // Whether the layer has the number, and it has no slot yet.
    fn has_place(&self, frame: &StoredFrame) -> bool
        ensures { result ≡ (list_any (λ number. int_eq number frame.now.number) (numbers_at self.now.farm frame.now.job frame.now.layer)
            && not (is_some (slot_from 0 (is_placed frame.now.job frame.now.layer (position_of self.now.farm frame.now)) self.now.farm.slots))) }
    {
        match self.known_at(frame.job, frame.layer) {
            None => false,
            Some(known) => is_free(known, frame),
        }
    }

    // Whether the frame's attempt fits, where it has one.
    fn attempt_fits(&self, version: &Version, frame: &StoredFrame) -> bool
        ensures { result ≡ attempt_fits self.now.farm version.now frame.now frame.now.state }
    {
        match frame.state {
            StoredState::Running { boot, host, since } => {
                0 < version.0 && (since <= self.lists.moment && self.is_taken(boot, host, frame))
            }
            StoredState::Setup => false,
            _ => true,
        }
    }

    // What is known of the layer at a place of a job.
    fn known_at(&self, job: JobNo, place: u32) -> Option<&KnownLayer>
        ensures { option_copied result ≡ option_map (layer_known self.now.farm.slots) (layer_at self.now.farm job place) }
    {
        let at = layer_at(self.lists.layers.as_slice(), job, place);
        row_at(self.layers.as_slice(), at)
    }

    // Whether the host takes the attempt at a running frame of that boot of it.
    fn is_taken(&self, boot: u32, host: HostNo, frame: &StoredFrame) -> bool
        ensures { result ≡ for_some (job_at self.now.farm frame.now.job) (λ job. for_some (layer_at self.now.farm frame.now.job frame.now.layer)
            (λ layer. for_some (slice_get self.now.farm.hosts host) (host_takes self.now.farm boot host job layer))) }
    {
        let Some(job) = job_in(self.lists.jobs.as_slice(), frame.job) else {
            return false;
        };
        let Some(layer) = layer_in(self.lists.layers.as_slice(), frame.job, frame.layer) else {
            return false;
        };
        match self.lists.hosts.get(host.0 as usize) {
            None => false,
            Some(on) => self.host_takes(boot, host, job, layer, on),
        }
    }

    // Whether the host is up in that boot, the job's show has a subscription there, and the layer's amounts have room.
    fn host_takes(
        &self,
        boot: u32,
        host: HostNo,
        job: &JobRow,
        layer: &LayerRow,
        on: &HostRow,
    ) -> bool
        ensures { result ≡ host_takes self.now.farm boot host job.now layer.now on.now }
    {
        is_up_in(boot, on)
            && (has_sub(self.lists.subs.as_slice(), job.show, on.alloc)
                && self.has_room(host, layer, on))
    }

    // Whether the layer's amounts have room on the host beside what attempts use there.
    fn has_room(&self, host: HostNo, layer: &LayerRow, on: &HostRow) -> bool
        ensures { result ≡ room_on self.now.farm host layer.now on.now }
    {
        fits_beside(
            self.used_cores(host),
            u64::from(layer.cores.0),
            u64::from(on.cores.0),
        ) && fits_beside(self.used_memory(host), layer.memory.0, on.memory.0)
    }

    // The cores that attempts on the host use.
    fn used_cores(&self, host: HostNo) -> u64
        ensures { result ≡ used_cores self.now.farm host }
    {
        self.hosts.cores(host)
    }

    // The memory that attempts on the host use.
    fn used_memory(&self, host: HostNo) -> u64
        ensures { result ≡ used_memory self.now.farm host }
    {
        self.hosts.memory(host)
    }

    // It is the last of the slots that were used.
    fn push_frame(&mut self, row: &FrameRow)
        requires after { comes_after self.old.last (key_of (kind.Frame row.now)) ≡ true }
        requires fits { slot_fits self.old.farm row.now ≡ true }
        ensures { self.new ≡ told_with self.old (kind.Frame row.now) }
    {
        let said = self.slot_row(row);
        note_slot(
            &mut self.layers,
            self.lists.layers.as_slice(),
            row.slot,
            &said,
        );
        note_left(&mut self.jobs, self.lists.jobs.as_slice(), &said);
        note_attempt(&mut self.hosts, &said);
        fill(&mut self.lists.slots, row.slot, &said);
        self.last = Some((8, id_of(row)));
    }

    // The slot that the row says.
    fn slot_row(&self, row: &FrameRow) -> SlotRow
        requires fits { taken_fits self.now.farm row.now.version row.now.frame ≡ true }
        ensures value { result ≡ slot_row self.now.farm row.now }
        ensures room { HasRoom self.now.farm result.proc }
    {
        match &row.frame {
            None => SlotRow {
                version: row.version,
                frame: None,
                proc: None,
            },
            Some(frame) => SlotRow {
                version: row.version,
                frame: Some(self.frame_of(frame)),
                proc: self.attempt_at(row.slot, row.version, frame),
            },
        }
    }

    // The frame that is stored.
    fn frame_of(&self, frame: &StoredFrame) -> Frame
        ensures { result ≡ frame_of self.now.farm frame.now }
    {
        Frame {
            job: frame.job,
            layer: frame.layer,
            position: self.position_of(frame) as u32,
            number: frame.number,
            retries: frame.retries,
            state: frame.state.state(),
        }
    }

    // The position of the frame's number in its layer, and how many numbers there are where it isn't there.
    fn position_of(&self, frame: &StoredFrame) -> usize
        ensures value { result ≡ position_of self.now.farm frame.now }
        ensures within { result ≤ MOST_FRAMES }
    {
        match self.known_at(frame.job, frame.layer) {
            None => 0,
            Some(known) => position_in(known, frame),
        }
    }

    // The attempt at the frame, where it runs.
    fn attempt_at(&self, slot: Slot, version: Version, frame: &StoredFrame) -> Option<ProcRow>
        requires fits { attempt_fits self.now.farm version frame.now frame.now.state ≡ true }
        ensures value { result ≡ attempt_at self.now.farm slot version frame.now frame.now.state }
        ensures room { HasRoom self.now.farm result }
    {
        match frame.state {
            StoredState::Running { boot, host, since } => {
                let job = job_in(self.lists.jobs.as_slice(), frame.job)?;
                let layer = layer_in(self.lists.layers.as_slice(), frame.job, frame.layer)?;
                let on = row_at(self.lists.hosts.as_slice(), host.0 as usize)?;
                keeps_within(on);
                Some(ProcRow {
                    slot,
                    version,
                    host,
                    boot,
                    cores: layer.cores,
                    memory: layer.memory,
                    sub: sub_between(job, on),
                    since,
                })
            }
            _ => None,
        }
    }
}

// A host's amounts are numbers of 64 bits.
fn keeps_within(on: &HostRow)
    ensures cores { on.now.cores < 2 ^ 64 }
    ensures memory { on.now.memory < 2 ^ 64 }
{
    let _cores = on.cores.0;
    let _memory = on.memory.0;
}

// Whether the layer has the frame's number, and it has no slot yet.
fn is_free(known: &KnownLayer, frame: &StoredFrame) -> bool
    ensures { result ≡ is_free known.now frame.now.number }
{
    match known.position(frame.number) {
        None => false,
        Some(position) => known.slot(position).is_none(),
    }
}

// The position of the frame's number in a layer, and how many numbers there are where it isn't there.
fn position_in(known: &KnownLayer, frame: &StoredFrame) -> usize
    ensures value { result ≡ position_or_len (λ n. int_eq n frame.now.number) known.now.numbers }
    ensures within { result ≤ MOST_FRAMES }
{
    position_or(known.position(frame.number), known.numbers())
}

// The position, or how many numbers there are.
fn position_or(position: Option<usize>, numbers: &[i32]) -> usize
    ensures { result ≡ place_or (length numbers.now) position }
{
    match position {
        None => numbers.len(),
        Some(position) => position,
    }
}

// The row's id.
fn id_of(row: &FrameRow) -> u64
    ensures { result ≡ row.now.slot }
{
    u64::from(row.slot.0)
}

// Whether the host is up in that boot.
fn is_up_in(boot: u32, on: &HostRow) -> bool
    ensures { result ≡ (is_up on.now.state && on.now.boot == boot) }
{
    on.state.is_up() && on.boot == boot
}

// Whether what is used and so much more are within a bound.
fn fits_beside(used: u64, more: u64, most: u64) -> bool
    ensures { result ≡ nat_le (used + more) most }
{
    used <= most && more <= most - used
}

// The slots up to one more; those between were never used.
fn fill(slots: &mut Vec<SlotRow>, slot: Slot, row: &SlotRow)
    requires room { SLOT_LIMIT ≤ vec_capacity slots.old }
    requires behind { length slots.old.items ≤ slot }
    requires below { slot < SLOT_LIMIT }
    ensures items { slots.new.items ≡ with_slot slots.old.items slot row.now }
    ensures room { vec_capacity slots.new ≡ vec_capacity slots.old }
{
    let gap = slot.0 as usize - slots.len();
    for _ in 0..gap {
        slots.push_reserved(SlotRow {
            version: Version(0),
            frame: None,
            proc: None,
        });
    }
    slots.push_reserved(*row);
}

// The frame's number has that slot.
fn note_slot(index: &mut Vec<KnownLayer>, layers: &[LayerRow], slot: Slot, row: &SlotRow)
    requires rise { (high : ℕ) × IsRising layer_key 0 layers.now high }
    requires places { list_all is_placed_below layers.now ≡ true }
    ensures { index.new.items ≡ with_found layers.now slot row.now.frame index.old.items }
{
    if let Some(frame) = &row.frame {
        let at = layer_at(layers, frame.job, frame.layer);
        set_at(index, at, frame.position, slot);
    }
}

// The number at a position of the layer at a place has that slot.
fn set_at(index: &mut Vec<KnownLayer>, at: usize, position: u32, slot: Slot)
    ensures { index.new.items ≡ changed_at index.old.items at (found_with position slot) }
{
    if at < index.len() {
        index[at].set(position as usize, slot);
    }
}

// A frame that isn't done is left of its job.
fn note_left(known: &mut KnownJobs, jobs: &[JobRow], row: &SlotRow)
    requires rise { (high : ℕ) × IsRising job_key 0 jobs.now high }
    ensures { known.new ≡ with_left jobs.now row.now.frame known.old }
{
    if let Some(frame) = &row.frame {
        if is_left(&frame.state) {
            known.leave(place_of_job(jobs, frame.job));
        }
    }
}

// Whether a frame of that state isn't done.
fn is_left(state: &FrameState) -> bool
    ensures { result ≡ not (is_done_state state.now) }
{
    !state.is_done()
}

// The attempt uses its amounts on its host.
fn note_attempt(known: &mut KnownHosts, row: &SlotRow)
    requires room { IfSome row.now.proc (λ p. (total_at known.old.cores p.host + p.cores < 2 ^ 64) × (total_at known.old.memory p.host + p.memory < 2 ^ 64)) }
    ensures { known.new ≡ with_attempt row.now.proc known.old }
{
    if let Some(proc) = &row.proc {
        known.book(proc.host, proc.cores, proc.memory);
    }
}
