//! Bookings: what one is made of, the row that it leaves, and how it is put in.

ghost use Rattle.std.specs.Prelude.{◌≡◌, ◌<◌, None, is_some};
ghost use Rattle.farm_types.specs.Booking.{may_record};
ghost use Rattle.farm_types.specs.Run.{live_at};
ghost use Rattle.farm_books.specs.Bookings.{IsBooking, booked_at, entry_of, row_of_booking};
ghost use Rattle.farm_books.specs.Books.{IsWhole, with_farm};
ghost use Rattle.farm_types.specs.Step.{after, moment_of};
ghost use Rattle.farm_types.specs.declared.limits.TheConstants.{LAST_VERSION};
ghost use Rattle.farm_types.specs.declared.states.FrameState.TheVariants as frame_state;

use crate::books::Books;
use farm_types::{
    Frame, FrameState, HostNo, HostRow, LayerRow, ProcRow, Slot, SlotRow, SubNo, Version,
};

/// A booking of the slot's frame on the host that was decided: the moment (seconds) for which it was asked, and the slot's row with the attempt that it
/// adds, at the later of that moment and the farm's.
#[derive(Clone, Copy, Debug)]
pub struct Booking {
    pub slot: Slot,
    pub host: HostNo,
    pub moment: u64,
    pub row: SlotRow,
}

// What a booking of a slot's frame on a host is made of: the slot's version and frame as they stand, the layer, the host's row, and the
// number of the subscription.
#[derive(Clone, Copy)]
pub(crate) struct BookingParts<'a> {
    pub(crate) version: Version,
    pub(crate) frame: Frame,
    pub(crate) layer: &'a LayerRow,
    pub(crate) host: &'a HostRow,
    pub(crate) sub: SubNo,
}

impl BookingParts<'_> {
    // The slot's row with the attempt that the booking adds at the moment.
    pub(crate) fn row(&self, slot: Slot, host: HostNo, moment: u64) -> SlotRow
        requires { self.now.version < LAST_VERSION }
        ensures { result ≡ row_of_booking slot host moment self.now.version self.now.frame self.now.layer.now self.now.host.now self.now.sub }
    {
        let version = Version(self.version.0 + 1);
        let proc = ProcRow {
            slot,
            version,
            host,
            boot: self.host.boot,
            cores: self.layer.cores,
            memory: self.layer.memory,
            sub: self.sub,
            since: moment,
        };
        SlotRow {
            version,
            frame: Some(running(&self.frame)),
            proc: Some(proc),
        }
    }
}

impl Books {
    /// Puts a booking of these books in. It takes no memory.
    pub fn book(&mut self, booking: &Booking)
        requires booking { IsBooking self.old.farm booking.now }
        requires free { live_at self.old.farm booking.now.slot ≡ None }
        ensures { self.new ≡ with_farm self.old (after self.old.farm (entry_of booking.now)) }
    {
        // There are at most 4,096 hosts, so that the number of one that is there is below that.
        let _hosts = self.count_hosts();
        self.advance_to(self.later_of(booking.moment));
        self.install_slot(booking.slot, &booking.row);
    }

    /// The slot's row with the attempt that a booking of its frame on the host adds, where that may be recorded.
    pub fn booked_at(&self, slot: Slot, host: HostNo, moment: u64) -> Option<SlotRow>
        requires { IsWhole self.now }
        ensures row { result ≡ booked_at self.now.farm slot host moment }
        ensures there { is_some result ≡ may_record self.now.farm slot host }
    {
        match self.parts(slot, host) {
            Err(_why) => None,
            Ok(parts) => Some(parts.row(slot, host, moment)),
        }
    }

    /// The later of the farm's moment and this one (seconds).
    pub fn later_of(&self, moment: u64) -> u64
        ensures { result ≡ moment_of self.now.farm moment }
    {
        self.moment.max(moment)
    }
}

// The frame as one that runs.
fn running(frame: &Frame) -> Frame
    ensures { result ≡ record frame.now { state = frame_state.Running } }
{
    let mut running = *frame;
    running.state = FrameState::Running;
    running
}
