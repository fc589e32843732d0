//! Attempts that are lost with their hosts. A host's own attempts are walked, never all slots.

ghost use Rattle.std.specs.Prelude.{◌≡◌, ◌==◌, OnOk};
ghost use Rattle.farm_types.specs.Farm.{changed_at};
ghost use Rattle.farm_types.specs.Lost.{lose_on, lost_row};
ghost use Rattle.farm_types.specs.Step.{at_moment, expire};
ghost use Rattle.farm_types.specs.declared.states.FrameState.TheVariants as frame_state;
ghost use Rattle.farm_draft.specs.Drafted.{with_farm, with_slots};
ghost use Rattle.farm_draft.specs.Ends.{AreFramed, OnlyEnds};
ghost use Rattle.farm_draft.specs.Lost.{expired_one, lost_where};

use crate::draft::Draft;
use farm_types::{Frame, FrameState, HostNo, HostState, Slot, SlotRow};
use host_book::HostLife;
use std::alloc::AllocError;

impl<'a> Draft<'a> {
    /// Each host that is silent at the draft's moment goes down, and the attempts on it are lost. Where the books know that none is, none is looked at.
    pub fn expire(&mut self) -> Result<(), AllocError>
        requires begins { self.old.farm ≡ at_moment self.old.base self.old.moment }
        requires framed { AreFramed self.old.base.slots }
        ensures { OnOk result (self.new ≡ with_farm self.old (expire self.old.farm self.old.moment)) }
    {
        if self.books.count_silent(self.moment) == 0 {
            return Ok(());
        }
        for host in 0..self.count_hosts() {
            self.expire_one(HostNo(host as u16))?;
        }
        Ok(())
    }

    /// Each attempt on the host is lost.
    pub fn lose(&mut self, host: HostNo) -> Result<(), AllocError>
        requires { OnlyEnds self.old.base.slots self.old.farm.slots }
        ensures { OnOk result (self.new ≡ with_slots self.old (lose_on (λ n. n == host) self.old.farm.slots)) }
    {
        let mut next = self.books.first_attempt(host);
        while let Some(slot) = next {
            self.lose_one(slot, host)?;
            next = self.books.next_attempt(slot);
        }
        Ok(())
    }

    // The slot's attempt is lost, where it is on the host.
    fn lose_one(&mut self, slot: Slot, host: HostNo) -> Result<(), AllocError>
        ensures { OnOk result (self.new ≡ with_slots self.old (changed_at self.old.farm.slots slot (lost_where (λ n. n == host)))) }
    {
        let Some(change) = self.slot(slot) else {
            return Ok(());
        };
        let Some(live) = &change.row.proc else {
            return Ok(());
        };
        if live.host != host {
            return Ok(());
        }
        self.set_slot(slot, &change.was, lost_row(&change.row))
    }

    // The host goes down, if it is silent at the draft's moment, and the attempts on it are lost.
    fn expire_one(&mut self, host: HostNo) -> Result<(), AllocError>
        requires { OnlyEnds self.old.base.slots self.old.farm.slots }
        ensures { OnOk result (self.new ≡ with_farm self.old (expired_one self.old.farm self.old.moment host)) }
    {
        let Some(life) = self.life(host) else {
            return Ok(());
        };
        if !life.is_silent(self.moment) {
            return Ok(());
        }
        self.lose(host)?;
        self.set_life(
            host,
            HostLife {
                state: HostState::Down,
                heard: life.heard,
                seq: life.seq,
                lock: life.lock,
            },
        )
    }
}

// The slot without its attempt: its frame waits again.
fn lost_row(row: &SlotRow) -> SlotRow
    ensures { result ≡ lost_row row.now }
{
    let frame = match &row.frame {
        None => None,
        Some(frame) => Some(waiting(frame)),
    };
    SlotRow {
        version: row.version,
        frame,
        proc: None,
    }
}

// The frame as one that waits.
fn waiting(frame: &Frame) -> Frame
    ensures { result ≡ record frame.now { state = frame_state.Waiting } }
{
    let mut waiting = *frame;
    waiting.state = FrameState::Waiting;
    waiting
}
