//! The farm that a session begins with.

ghost use Rattle.std.specs.Prelude.{◌≡◌, ◌<◌, ◌+◌, ◌^◌, ◌∷◌, [], IfOk, length};
ghost use Rattle.std.specs.List.{All};
ghost use Rattle.farm_load.specs.booking_recorder.specs.Going.{Journals};
ghost use Rattle.booking_table.specs.Seats.{IsSeatOf, view};
ghost use Rattle.farm_law.specs.DemoRun.{demo_entries};
ghost use Rattle.farm_types.specs.Run.{IsLegal, IsLegalStep};
ghost use Rattle.farm_load.specs.recorder.specs.Faults.{is_store_fault};
ghost use Rattle.farm_load.specs.recorder.specs.Recording.{HasRecorded};
ghost use Rattle.farm_load.specs.recording_turns.specs.Resting.{IsUnplaced, split_in};
ghost use Rattle.farm_keeper.specs.Keeping.{Continues};
ghost use Rattle.session.specs.Opening.{Begins, GoesThrough, MayOpen, Opens};
ghost use Rattle.session.specs.Opening.{IsUnbooked, of_record};
ghost use Rattle.farm_gen.specs.Load.{IsLoad, load_entries};
ghost use Rattle.session.specs.Words.{IsStated, IsWithin, opened_at, opened_entry, opening_entries, word_form};

use crate::stored::open_stored;
use crate::words::Form;
use booking_table::{Seat, Table};
use farm_gen::{demo_entries, load_entries, loads_are_runs};
use farm_keeper::Keeper;
use farm_law::the_demonstration_is_a_run;
use farm_load::booking_recorder::{CommitRefusal, Naming, Recorder};
use farm_load::farm_core::Farm;
use farm_load::recorder::RecordFault;
use farm_types::{Act, Entry};
use recovery::RecoverFault;
use std::alloc::Global;

/// Why no farm was opened: the store failed, the first of its rows at fault is this one, or memory ran out.
#[derive(Clone, Copy, Debug, PartialEq, Eq)]
pub enum OpenFault {
    Store,
    Bad { fault: RecoverFault },
    NoMemory,
}

/// A farm with its keeper and the recorder's seat, or the keeper given back with the reason why no farm was opened.
#[derive(Drop)]
pub enum Opening<K: Keeper, N: Naming> {
    Opened { recorder: Recorder<K, N> },
    Failed { keeper: K, fault: OpenFault },
}

/// Opens the farm of the arguments at a moment (seconds), on a new table: recovers the farm that the keeper's rows say, places it, and records that it was
/// opened, and what the arguments state. The demonstration and a load begin with no rows, so that none are loaded; a load is opened at moment 0, whatever
/// the time.
pub fn open<K: Keeper, N: Naming>(
    alloc: Global,
    form: Form<'_>,
    keeper: K,
    table: &Table,
    seat: Seat,
    moment: u64,
) -> Opening<K, N>
    requires within { IsWithin (word_form form) }
    requires kept { K.tells keeper → MayOpen (word_form form) (K.holds keeper) (K.left keeper) }
    requires table { table.now ≡ N.table }
    requires seat { IsSeatOf table.now seat }
    requires unplaced { IsUnplaced (view seat) }
    ensures { Opens K.tells K.holds K.left K.faults (word_form form.entry) moment keeper result }
{
    match form {
        Form::Demo | Form::Load { .. } => open_new(alloc, form, keeper, table, seat, moment),
        Form::Script { .. } => open_stored(alloc, form, keeper, table, seat, moment),
    }
}

// Opens the farm of the demonstration or of a load.
fn open_new<K: Keeper, N: Naming>(
    alloc: Global,
    form: Form<'_>,
    keeper: K,
    table: &Table,
    seat: Seat,
    moment: u64,
) -> Opening<K, N>
    requires stated { IsStated (word_form form) }
    requires within { IsWithin (word_form form) }
    requires kept { K.tells keeper → MayOpen (word_form form) (K.holds keeper) (K.left keeper) }
    requires table { table.now ≡ N.table }
    requires seat { IsSeatOf table.now seat }
    requires unplaced { IsUnplaced (view seat) }
    ensures { Opens K.tells K.holds K.left K.faults (word_form form.entry) moment keeper result }
{
    the_demonstration_is_a_run();
    loads_are_runs();
    match Farm::make(alloc) {
        Ok(farm) => begin(alloc, form, farm, keeper, table, seat, moment),
        Err(_) => Opening::Failed {
            keeper,
            fault: OpenFault::NoMemory,
        },
    }
}

/// Places a farm that its keeper holds, and records its opening.
pub(crate) fn begin<K: Keeper, N: Naming>(
    alloc: Global,
    form: Form<'_>,
    farm: Farm,
    keeper: K,
    table: &Table,
    seat: Seat,
    moment: u64,
) -> Opening<K, N>
    requires within { IsWithin (word_form form) }
    requires legal { IsLegal farm (opening_entries (word_form form) moment) }
    requires recorded { K.tells keeper → HasRecorded (K.holds keeper) (K.left keeper) farm }
    requires table { table.now ≡ N.table }
    requires seat { IsSeatOf table.now seat }
    requires unplaced { IsUnplaced (view seat) }
    ensures { Begins K.tells K.holds K.left K.faults (word_form form.entry) moment farm keeper result }
{
    let mut recorder = Recorder::make(alloc, farm, keeper, table, seat);
    match record_opening(alloc, form, table, &mut recorder, moment) {
        Ok(()) => Opening::Opened { recorder },
        Err(fault) => {
            let (keeper, _seat) = recorder.close();
            Opening::Failed {
                keeper,
                fault: of_record(fault),
            }
        }
    }
}

// Records that the scheduler was opened, and what the arguments state.
fn record_opening<K: Keeper, N: Naming>(
    alloc: Global,
    form: Form<'_>,
    table: &Table,
    recorder: &mut Recorder<K, N>,
    moment: u64,
) -> Result<(), RecordFault>
    requires within { IsWithin (word_form form) }
    requires legal { IsLegal recorder.old.farm (opening_entries (word_form form) moment) }
    requires table { table.now ≡ N.table }
    requires alone { split_in recorder.old.view.desk ≡ 0 }
    requires room { length recorder.old.view.journal + length (opening_entries (word_form form) moment) < 2 ^ 64 }
    ensures farm { GoesThrough recorder.old.farm (opening_entries (word_form form.entry) moment) result recorder.new.farm }
    ensures journal { IfOk result (λ _. Journals recorder.old.view recorder.new.view (opening_entries (word_form form.entry) moment)) }
    ensures keeper { Continues K.tells K.faults recorder.old.keeper recorder.new.keeper (is_store_fault result) }
{
    record_opened(alloc, table, recorder, opened_at(form, moment))?;
    match form {
        Form::Demo => record_demo(alloc, table, recorder, moment),
        Form::Script { .. } => Ok(()),
        Form::Load { n } => record_load(alloc, table, recorder, n),
    }
}

// The moment at which the scheduler is opened.
fn opened_at(form: Form<'_>, moment: u64) -> u64
    ensures { result ≡ opened_at (word_form form.entry) moment }
{
    match form {
        Form::Demo | Form::Script { .. } => moment,
        Form::Load { .. } => 0,
    }
}

// Records that the scheduler was opened.
fn record_opened<K: Keeper, N: Naming>(
    alloc: Global,
    table: &Table,
    recorder: &mut Recorder<K, N>,
    moment: u64,
) -> Result<(), RecordFault>
    requires legal { IsLegalStep recorder.old.farm (opened_entry moment) }
    requires table { table.now ≡ N.table }
    requires alone { split_in recorder.old.view.desk ≡ 0 }
    requires room { length recorder.old.view.journal + 1 < 2 ^ 64 }
    ensures farm { GoesThrough recorder.old.farm (opened_entry moment ∷ []) result recorder.new.farm }
    ensures journal { IfOk result (λ _. Journals recorder.old.view recorder.new.view (opened_entry moment ∷ [])) }
    ensures keeper { Continues K.tells K.faults recorder.old.keeper recorder.new.keeper (is_store_fault result) }
{
    let opened = Entry {
        moment,
        act: Act::Opened,
    };
    record(alloc, table, recorder, &opened)
}

// Records the entries of the demonstration.
fn record_demo<K: Keeper, N: Naming>(
    alloc: Global,
    table: &Table,
    recorder: &mut Recorder<K, N>,
    moment: u64,
) -> Result<(), RecordFault>
    requires legal { IsLegal recorder.old.farm (demo_entries moment) }
    requires table { table.now ≡ N.table }
    requires alone { split_in recorder.old.view.desk ≡ 0 }
    requires room { length recorder.old.view.journal + length (demo_entries moment) < 2 ^ 64 }
    ensures farm { GoesThrough recorder.old.farm (demo_entries moment) result recorder.new.farm }
    ensures journal { IfOk result (λ _. Journals recorder.old.view recorder.new.view (demo_entries moment)) }
    ensures keeper { Continues K.tells K.faults recorder.old.keeper recorder.new.keeper (is_store_fault result) }
{
    let entries = demo_entries(alloc, moment)?;
    record_each(alloc, table, recorder, entries.as_slice())
}

// Records the entries of a load.
fn record_load<K: Keeper, N: Naming>(
    alloc: Global,
    table: &Table,
    recorder: &mut Recorder<K, N>,
    n: u32,
) -> Result<(), RecordFault>
    requires load { IsLoad n }
    requires legal { IsLegal recorder.old.farm (load_entries n) }
    requires table { table.now ≡ N.table }
    requires alone { split_in recorder.old.view.desk ≡ 0 }
    requires room { length recorder.old.view.journal + length (load_entries n) < 2 ^ 64 }
    ensures farm { GoesThrough recorder.old.farm (load_entries n) result recorder.new.farm }
    ensures journal { IfOk result (λ _. Journals recorder.old.view recorder.new.view (load_entries n)) }
    ensures keeper { Continues K.tells K.faults recorder.old.keeper recorder.new.keeper (is_store_fault result) }
{
    let entries = load_entries(alloc, n)?;
    record_each(alloc, table, recorder, entries.as_slice())
}

// Records entries in turn, none of which books, until one can't be recorded.
fn record_each<K: Keeper, N: Naming>(
    alloc: Global,
    table: &Table,
    recorder: &mut Recorder<K, N>,
    entries: &[Entry],
) -> Result<(), RecordFault>
    requires legal { IsLegal recorder.old.farm entries.now }
    requires unbooked { All IsUnbooked entries.now }
    requires table { table.now ≡ N.table }
    requires alone { split_in recorder.old.view.desk ≡ 0 }
    requires room { length recorder.old.view.journal + length entries.now < 2 ^ 64 }
    ensures farm { GoesThrough recorder.old.farm entries.now result recorder.new.farm }
    ensures journal { IfOk result (λ _. Journals recorder.old.view recorder.new.view entries.now) }
    ensures keeper { Continues K.tells K.faults recorder.old.keeper recorder.new.keeper (is_store_fault result) }
{
    for entry in entries {
        record(alloc, table, recorder, entry)?;
    }
    Ok(())
}

// Records an entry that the farm doesn't refuse, and that doesn't book. No seat was split off, so that no host is held.
fn record<K: Keeper, N: Naming>(
    alloc: Global,
    table: &Table,
    recorder: &mut Recorder<K, N>,
    entry: &Entry,
) -> Result<(), RecordFault>
    requires legal { IsLegalStep recorder.old.farm entry.now }
    requires unbooked { IsUnbooked entry.now }
    requires table { table.now ≡ N.table }
    requires alone { split_in recorder.old.view.desk ≡ 0 }
    requires room { length recorder.old.view.journal + 1 < 2 ^ 64 }
    ensures farm { GoesThrough recorder.old.farm (entry.now ∷ []) result recorder.new.farm }
    ensures journal { IfOk result (λ _. Journals recorder.old.view recorder.new.view (entry.now ∷ [])) }
    ensures keeper { Continues K.tells K.faults recorder.old.keeper recorder.new.keeper (is_store_fault result) }
{
    match recorder.commit(alloc, table, entry) {
        Ok(_) => Ok(()),
        Err(CommitRefusal::Refused { .. }) => unreachable!(),
        Err(CommitRefusal::Spent) => unreachable!(),
        Err(CommitRefusal::Held { .. }) => unreachable!(),
        Err(CommitRefusal::Store) => Err(RecordFault::Store),
        Err(CommitRefusal::NoMemory) => Err(RecordFault::NoMemory),
    }
}

fn of_record(fault: RecordFault) -> OpenFault
    ensures { result ≡ of_record fault }
{
    match fault {
        RecordFault::Store => OpenFault::Store,
        RecordFault::NoMemory => OpenFault::NoMemory,
    }
}
