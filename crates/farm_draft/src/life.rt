//! Hosts that are heard, locked, and opened again.

ghost use Rattle.std.specs.Prelude.{◌≡◌, map, OnOk};
ghost use Rattle.farm_types.specs.Farm.{changed_at};
ghost use Rattle.farm_types.specs.Hosts.{heard_row, locked_row, reopened_row};
ghost use Rattle.farm_draft.specs.Drafted.{with_hosts};

use crate::draft::Draft;
use farm_types::{HostNo, HostState, LockState};
use host_book::HostLife;
use std::alloc::AllocError;

impl<'a> Draft<'a> {
    /// The host is up and was heard at the draft's moment, with that sequence number.
    pub fn hear(&mut self, host: HostNo, seq: u64) -> Result<(), AllocError>
        ensures { OnOk result (self.new ≡ with_hosts self.old (changed_at self.old.farm.hosts host (heard_row seq self.old.moment))) }
    {
        let Some(life) = self.life(host) else {
            return Ok(());
        };
        self.set_life(
            host,
            HostLife {
                state: HostState::Up,
                heard: self.moment,
                seq,
                lock: life.lock,
            },
        )
    }

    /// The host's lock is in that state.
    pub fn lock(&mut self, host: HostNo, lock: LockState) -> Result<(), AllocError>
        ensures { OnOk result (self.new ≡ with_hosts self.old (changed_at self.old.farm.hosts host (locked_row lock))) }
    {
        let Some(life) = self.life(host) else {
            return Ok(());
        };
        self.set_life(
            host,
            HostLife {
                state: life.state,
                heard: life.heard,
                seq: life.seq,
                lock,
            },
        )
    }

    /// Each host that is up counts as heard at the draft's moment.
    pub fn reopen(&mut self) -> Result<(), AllocError>
        ensures { OnOk result (self.new ≡ with_hosts self.old (map (reopened_row self.old.moment) self.old.farm.hosts)) }
    {
        for host in 0..self.count_hosts() {
            self.reopen_one(HostNo(host as u16))?;
        }
        Ok(())
    }

    // The host counts as heard, if it is up.
    fn reopen_one(&mut self, host: HostNo) -> Result<(), AllocError>
        ensures { OnOk result (self.new ≡ with_hosts self.old (changed_at self.old.farm.hosts host (reopened_row self.old.moment))) }
    {
        let Some(life) = self.life(host) else {
            return Ok(());
        };
        if !life.state.is_up() {
            return Ok(());
        }
        self.set_life(
            host,
            HostLife {
                state: life.state,
                heard: self.moment,
                seq: life.seq,
                lock: life.lock,
            },
        )
    }
}
