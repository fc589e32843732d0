//! What passes are told: by the recorder, and by one another.

ghost use Rattle.std.specs.Prelude.{ℕ, ◌≡◌, ◌<◌, ◌++◌, ◌∷◌, [], MatchResult};
ghost use mathlib.Core.List.{IsPrefix};
ghost use Rattle.booking_rule.specs.Splits.{longer_of, look_at, numbered, one_more};
ghost use Rattle.booking_table.specs.Seats.{view, IsSeatOf, IsSameSeat};
ghost use Rattle.recording_turns.specs.Resting.{IsAtRest, split_in};
ghost use Rattle.booking_recorder.specs.Passing.{CatchesUp, HandsOver, IsBehind, IsNumbered, Learns, Notices, counted_up};
ghost use Rattle.booking_recorder.specs.Recording.{most_seats};

use crate::farm_recorder::Recorder;
use crate::naming::Naming;
use crate::pass::Pass;
use crate::refusal::PassRefusal;
use booking_table::{Seat, Table};
use farm_keeper::Keeper;
use std::marker::PhantomData;

impl<K: Keeper, N: Naming> Recorder<K, N> {
    /// A pass: it has seen the whole journal, holds nothing, and has no receipts. Full exactly where 64 numbered seats were split off.
    pub fn pass(&mut self, table: &Table) -> Result<Pass<N>, PassRefusal>
        requires table { table.now ≡ N.table }
        ensures { MatchResult result
            (λ pass. (pass.view ≡ numbered self.old.view) × (pass.faults ≡ 0) × (split_in self.old.view.desk < most_seats)
            × (self.new ≡ record self.old { view = one_more self.old.view }))
            (λ _. (split_in self.old.view.desk ≡ most_seats) × (self.new ≡ self.old)) }
    {
        let count = self.count;
        match self.split(table) {
            Ok(seat) => Ok(Pass {
                seat,
                count,
                faults: 0,
                of: PhantomData,
            }),
            Err(full) => Err(full),
        }
    }

    /// What the pass has seen is a beginning of what the recorder has: the recorder looks, and learns nothing else.
    pub fn notice(&mut self, table: &Table, pass: &mut Pass<N>)
        requires table { table.now ≡ N.table }
        ensures same { pass.new ≡ pass.old }
        ensures behind { IsBehind pass.old.view self.old.view }
        ensures like { self.new ≡ record self.old { view = self.new.view } }
        ensures notices { Notices self.old.view self.new.view }
    {
        see(table, &mut self.seat, &mut pass.seat);
    }

    /// The pass has then seen all that the recorder has, and takes the receipts and the failures of the store that no pass had taken.
    pub fn catch_up(&mut self, table: &Table, pass: &mut Pass<N>)
        requires table { table.now ≡ N.table }
        ensures journal { pass.new.view.journal ≡ self.old.view.journal }
        ensures trail { pass.new.view.desk_trail ≡ self.new.view.trail }
        ensures receipts { pass.new.view.receipts ≡ pass.old.view.receipts ++ self.old.view.receipts }
        ensures faults { pass.new.faults ≡ counted_up pass.old.faults self.old.faults }
        ensures learns { Learns pass.old.view pass.new.view }
        ensures look { (found : ℕ) × (pass.new.view.trail ≡ pass.old.view.trail ++ look_at 0 found ∷ []) }
        ensures behind { IsBehind pass.old.view self.old.view }
        ensures hands_over { HandsOver self.old self.new }
    {
        inform(table, &mut self.seat, &mut pass.seat);
        pass.count = self.count;
        pass.faults = pass.faults.saturating_add(self.faults);
        self.faults = 0;
    }
}

impl<N: Naming> Pass<N> {
    /// Another pass has then seen at least what this one has, of the journal and of the recorder's trail.
    pub fn meet(&mut self, table: &Table, into: &mut Pass<N>)
        requires table { table.now ≡ N.table }
        ensures same { self.new ≡ self.old }
        ensures journal { into.new.view.journal ≡ longer_of into.old.view.journal self.old.view.journal }
        ensures told { IsPrefix self.old.view.journal into.new.view.journal }
        ensures trail { into.new.view.desk_trail ≡ longer_of into.old.view.desk_trail self.old.view.desk_trail }
        ensures receipts { into.new.view.receipts ≡ into.old.view.receipts }
        ensures faults { into.new.faults ≡ into.old.faults }
        ensures learns { Learns into.old.view into.new.view }
    {
        let note = table.note(&mut self.seat);
        table.learn(&mut into.seat, note);
        into.count = into.count.max(self.count);
    }
}

// The recorder's seat sees that what the pass has seen is a beginning of what itself did.
fn see(table: &Table, first: &mut Seat, pass: &mut Seat)
    requires first { IsSeatOf table.now first.old }
    requires pass { IsSeatOf table.now pass.old }
    requires home { IsAtRest (view first.old) }
    requires numbered { IsNumbered (view pass.old) }
    ensures first { IsSameSeat first.old first.new }
    ensures pass { IsSameSeat pass.old pass.new }
    ensures same { view pass.new ≡ view pass.old }
    ensures behind { IsBehind (view pass.old) (view first.old) }
    ensures notices { Notices (view first.old) (view first.new) }
{
    let seen = table.note(pass);
    table.learn(first, seen);
}

// The recorder's seat sees that what the pass has seen is a beginning of what itself did, and then the pass takes all of that.
fn inform(table: &Table, first: &mut Seat, pass: &mut Seat)
    requires first { IsSeatOf table.now first.old }
    requires pass { IsSeatOf table.now pass.old }
    requires home { IsAtRest (view first.old) }
    requires numbered { IsNumbered (view pass.old) }
    ensures first { IsSameSeat first.old first.new }
    ensures pass { IsSameSeat pass.old pass.new }
    ensures catches_up { CatchesUp (view first.old) (view pass.old) (view first.new) (view pass.new) }
{
    let seen = table.note(pass);
    table.learn(first, seen);
    let note = table.note(first);
    table.learn(pass, note);
}
