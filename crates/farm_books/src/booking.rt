//! When a frame may be booked on a host.

ghost use Rattle.std.specs.Prelude.{ℕ, ◌≡◌, ◌<◌, ◌+◌, Some, is_ok, nat_le, nat_lt, slice_get, true, IfOk};
ghost use Rattle.std.specs.Result.{result_err};
ghost use Rattle.farm_types.specs.Farm.{for_some, sub_of};
ghost use Rattle.farm_types.specs.Sums.{running_in};
ghost use Rattle.farm_types.specs.Depends.{is_open};
ghost use Rattle.farm_types.specs.declared.limits.TheConstants.{LAST_VERSION};
ghost use Rattle.farm_types.specs.Booking.{in_facility, has_capacity, is_waiting, within_burst, within_limit, may_place, may_record};
ghost use Rattle.booking_reasons.specs.WhyNot.{why_not_place, why_not_record};
ghost use Rattle.farm_books.specs.Bookings.{IsAsked, IsBooking, booked_at, row_of_booking};
ghost use Rattle.farm_books.specs.Books.{IsWhole};
ghost use Rattle.farm_books.specs.Reads.{rows_share_tag, takes_job, takes_layer};

use crate::begin::{Booking, BookingParts};
use crate::books::Books;
use alloc_tags::matches;
use booking_reasons::NotBooked;
use farm_types::{
    AllocNo, Cores, Frame, HostNo, HostRow, JobNo, JobRow, LAST_VERSION, LayerRow, LimitNo, Slot,
    SubNo, Text, Version,
};
use limit_book::LimitState;

impl Books {
    /// The booking of the slot's frame on the host that is asked for at the moment (seconds), or the first reason why it may not be recorded. Tags are
    /// passed over: who asks for a booking has compared them, and the host's may be others since.
    pub fn recordable(&self, slot: Slot, host: HostNo, moment: u64) -> Result<Booking, NotBooked>
        requires { IsWhole self.now }
        ensures may { is_ok result ≡ may_record self.now.farm slot host }
        ensures why { result_err result ≡ why_not_record self.now.farm slot host }
        ensures asked { IfOk result (IsAsked slot host moment) }
        ensures row { IfOk result (IsBooking self.now.farm) }
    {
        let parts = match self.parts(slot, host) {
            Ok(parts) => parts,
            Err(why) => return Err(why),
        };
        let row = parts.row(slot, host, self.later_of(moment));
        Ok(Booking {
            slot,
            host,
            moment,
            row,
        })
    }

    /// Whether frames of the job may be booked on the host, as far as host and job decide it: the host is up and open, and the job isn't paused and of
    /// the host's facility.
    pub fn takes_job(&self, host: HostNo, job: JobNo) -> bool
        ensures { result ≡ takes_job self.now.farm host job }
    {
        let Some(row) = self.host(host) else {
            return false;
        };
        match self.job(job) {
            None => false,
            Some(job) => {
                row.takes_frames() && !job.paused && self.in_facility(row.alloc, &job.facility)
            }
        }
    }

    /// Whether frames of the layer may be booked on the host of the subscription of that number, as far as the layer decides it: the host
    /// has the capacity, the burst is not passed, the layer's limit isn't reached, and the tags match.
    pub fn takes_layer(&self, host: HostNo, sub: SubNo, layer: &LayerRow) -> bool
        ensures { result ≡ takes_layer self.now.farm host sub layer.now }
    {
        match self.host(host) {
            None => false,
            Some(row) => {
                self.has_capacity(host, row, layer)
                    && self.has_burst(sub, layer)
                    && self.is_within_limit(layer)
                    && self.tags_match(layer, row)
            }
        }
    }

    // What a booking of the slot's frame on the host is made of, or the first reason why it may not be recorded. A frame that doesn't wait is seen
    // before the others are looked up.
    pub(crate) fn parts(&self, slot: Slot, host: HostNo) -> Result<BookingParts<'_>, NotBooked>
        requires { IsWhole self.now }
        ensures allowed { is_ok result ≡ may_record self.now.farm slot host }
        ensures why { result_err result ≡ why_not_record self.now.farm slot host }
        ensures version { IfOk result (λ b. b.version < LAST_VERSION) }
        ensures makes { IfOk result (λ b. (moment : ℕ) → booked_at self.now.farm slot host moment
            ≡ Some (row_of_booking slot host moment b.version b.frame b.layer.now b.host.now b.sub)) }
    {
        let Some(row) = self.slot(slot) else {
            return Err(NotBooked::NoFrame);
        };
        let Some(frame) = &row.frame else {
            return Err(NotBooked::NoFrame);
        };
        if !frame.state.is_waiting() {
            return Err(NotBooked::NotWaiting);
        }
        let Some(job) = self.job(frame.job) else {
            return Err(NotBooked::NoJob);
        };
        let Some(layer) = self.layer(frame.job, frame.layer) else {
            return Err(NotBooked::NoLayer);
        };
        let Some(host_row) = self.host(host) else {
            return Err(NotBooked::NoHost);
        };
        let sub = match self.place(slot, host, row.version, frame, job, layer, host_row) {
            Ok(sub) => sub,
            Err(why) => return Err(why),
        };
        Ok(BookingParts {
            version: row.version,
            frame: *frame,
            layer,
            host: host_row,
            sub,
        })
    }

    // The subscription on which the frame of that job and layer, which waits, is booked on the host, or the first reason why it may not be.
    fn place(
        &self,
        slot: Slot,
        host: HostNo,
        version: Version,
        frame: &Frame,
        job: &JobRow,
        layer: &LayerRow,
        host_row: &HostRow,
    ) -> Result<SubNo, NotBooked>
        requires whole { IsWhole self.now }
        requires waits { is_waiting frame.now.state ≡ true }
        ensures allowed { is_ok result ≡ may_place self.now.farm slot host version frame.now job.now layer.now host_row.now }
        ensures why { result_err result ≡ why_not_place self.now.farm slot host version job.now layer.now host_row.now }
        ensures version { IfOk result (λ sub. version < LAST_VERSION) }
        ensures number { IfOk result (λ sub. sub ≡ sub_of job.now.show host_row.now.alloc) }
    {
        if version.0 >= LAST_VERSION {
            return Err(NotBooked::VersionSpent);
        }
        if !job.state.is_pending() {
            return Err(NotBooked::JobFinished);
        }
        if job.paused {
            return Err(NotBooked::JobPaused);
        }
        if !self.is_open(slot) {
            return Err(NotBooked::NotOpen);
        }
        if !self.in_facility(host_row.alloc, &job.facility) {
            return Err(NotBooked::OtherFacility);
        }
        if !host_row.takes_frames() {
            return Err(NotBooked::HostClosed);
        }
        if !self.has_capacity(host, host_row, layer) {
            return Err(NotBooked::NoCapacity);
        }
        let Some(sub) = self.sub_of(job.show, host_row.alloc) else {
            return Err(NotBooked::PastBurst);
        };
        if !is_within(self.booked(sub.sub), layer, sub.burst) {
            return Err(NotBooked::PastBurst);
        }
        if !self.is_within_limit(layer) {
            return Err(NotBooked::AtLimit);
        }
        Ok(sub.sub)
    }

    /// Whether the frame in the slot waits for no other.
    pub fn is_open(&self, slot: Slot) -> bool
        requires { IsWhole self.now }
        ensures { result ≡ is_open self.now.farm slot }
    {
        self.kept();
        self.depends.unmet(slot) == 0
    }

    // Whether the facility is that of the allocation.
    fn in_facility(&self, alloc: AllocNo, facility: &Text) -> bool
        ensures { result ≡ in_facility self.now.farm alloc facility.now }
    {
        match self.allocation(alloc) {
            None => false,
            Some(allocation) => allocation.facility.is(facility.as_str()),
        }
    }

    // Whether the host has capacity for the layer's amounts.
    fn has_capacity(&self, host: HostNo, host_row: &HostRow, layer: &LayerRow) -> bool
        ensures { result ≡ has_capacity self.now.farm host host_row.now layer.now }
    {
        u128::from(self.used_cores(host)) + u128::from(layer.cores.0)
            <= u128::from(host_row.cores.0)
            && self.used_memory(host) + u128::from(layer.memory.0) <= u128::from(host_row.memory.0)
    }

    // Whether the booked cores with the layer's are within the burst of the subscription of that number.
    fn has_burst(&self, sub: SubNo, layer: &LayerRow) -> bool
        ensures { result ≡ within_burst self.now.farm sub layer.now }
    {
        match self.sub(sub) {
            None => false,
            Some(s) => is_within(self.booked(sub), layer, s.burst),
        }
    }

    // Whether fewer frames run in the layer's limit than may, where it has one.
    fn is_within_limit(&self, layer: &LayerRow) -> bool
        ensures { result ≡ within_limit self.now.farm layer.now }
    {
        match layer.limit {
            None => true,
            Some(limit) => self.has_place_in(limit),
        }
    }

    // Whether the limit is there, and fewer frames run in it than may.
    fn has_place_in(&self, limit: LimitNo) -> bool
        ensures { result ≡ for_some (slice_get self.now.farm.limits limit) (λ row. nat_lt (running_in self.now.farm limit) row.most) }
    {
        has_place(self.limits().get(limit))
    }

    // Whether the tags of the layer and those of the host share a word.
    fn tags_match(&self, layer: &LayerRow, host_row: &HostRow) -> bool
        ensures { result ≡ rows_share_tag self.now.farm layer.now host_row.now }
    {
        match self.allocation(host_row.alloc) {
            None => false,
            Some(allocation) => matches(&host_row.tags, allocation.tag.as_str(), &layer.tags),
        }
    }
}

// Whether the limit is there, and fewer frames run in it than may.
fn has_place(state: Option<LimitState>) -> bool
    ensures { result ≡ for_some state (λ s. nat_lt s.running s.most) }
{
    match state {
        None => false,
        Some(state) => state.running < state.most,
    }
}

// Whether so many booked cores with the layer's are within the burst.
fn is_within(booked: Cores, layer: &LayerRow, burst: Cores) -> bool
    ensures { result ≡ nat_le (booked + layer.now.cores) burst }
{
    u64::from(booked.0) + u64::from(layer.cores.0) <= u64::from(burst.0)
}
