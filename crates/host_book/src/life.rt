//! What changes of a host while it lives: its state, when it was last heard, the last report, and its lock.

ghost use Rattle.std.specs.Prelude.{◌≡◌, ◌<◌, length, option_map, slice_get};
ghost use Rattle.std.specs.Vec.{vec_capacity};
ghost use Rattle.farm_types.specs.Farm.{changed_at};
ghost use Rattle.host_book.specs.Inside.{watched_in};
ghost use Rattle.host_book.specs.Life.{is_unheard_life, life_of, with_life};

use crate::hosts::Hosts;
use crate::walk::is_past;
use farm_types::{HostNo, HostRow, HostState, LockState};

/// The part of a host's row that reports, silence and locks change: the moment when it was last heard in seconds, and the
/// sequence number of its last report.
#[derive(Clone, Copy, Debug, PartialEq, Eq)]
pub struct HostLife {
    pub state: HostState,
    pub heard: u64,
    pub seq: u64,
    pub lock: LockState,
}

impl HostLife {
    /// Whether a host of this life is silent at the moment (seconds): it is up, and was last heard more than 300 seconds before.
    pub fn is_silent(&self, moment: u64) -> bool
        ensures { result ≡ is_unheard_life moment self.now }
    {
        self.state.is_up() && is_past(self.heard, moment)
    }
}

impl Hosts {
    /// The life of the host of that number.
    pub fn life(&self, host: HostNo) -> Option<HostLife>
        ensures { result ≡ option_map life_of (slice_get self.now host) }
    {
        self.row(host).map(life_of)
    }

    /// The host has that life.
    pub fn set_life(&mut self, host: HostNo, life: HostLife)
        requires { host < length self.old }
        ensures { self.new ≡ changed_at self.old host (with_life life) }
    {
        let watched = watched_in(&life);
        live_at(&mut self.rows, host.0 as usize, life);
        self.watched[host.0 as usize] = watched;
        self.oldest = self.oldest.min(watched);
    }
}

/// The life of a host.
pub(crate) fn life_of(row: &HostRow) -> HostLife
    ensures { result ≡ life_of row.now }
{
    HostLife {
        state: row.state,
        heard: row.heard,
        seq: row.seq,
        lock: row.lock,
    }
}

/// The moment when a host of that life was last heard, and the greatest number for one that is down.
pub(crate) fn watched_in(life: &HostLife) -> u64
    ensures { result ≡ watched_in life.now }
{
    match life.state {
        HostState::Up => life.heard,
        HostState::Down => u64::MAX,
    }
}

// The host at a place has that life.
fn live_at(rows: &mut Vec<HostRow>, place: usize, life: HostLife)
    requires { place < length rows.old.items }
    ensures items { rows.new.items ≡ changed_at rows.old.items place (with_life life) }
    ensures capacity { vec_capacity rows.new ≡ vec_capacity rows.old }
{
    let row = &mut rows[place];
    row.state = life.state;
    row.heard = life.heard;
    row.seq = life.seq;
    row.lock = life.lock;
}
