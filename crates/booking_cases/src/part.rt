//! The rows of a case that go on over one table.

ghost use Rattle.std.specs.Prelude.{◌≡◌};
ghost use Rattle.booking_rule.specs.Kept.{first_view};
ghost use Rattle.booking_table.specs.Seats.{view, IsSeatOf};
ghost use Rattle.recorder_start.specs.Keeping.{IsKeptBy};

use crate::case::Row;
use crate::commits::commit_entry;
use crate::opening::opened;
use crate::play::{Play, take_step};
use crate::reader::Reader;
use crate::splitting::split_off;
use crate::step::step_of;
use crate::store_rows::rows_in;
use booking_recorder::{Naming, Recorder};
use booking_table::{Seat, Table};
use farm_core::Farm;
use farm_keeper::{MemoryKeeper, Row as StoreRow};
use farm_types::{Act, Entry, Items};
use recorder_start::{OpenFault, recorder_on};
use std::alloc::{AllocError, Global};
use std::marker::Brand;

/// What differed first, or the store's rows after all steps that came as they are told.
#[derive(Debug, Drop)]
pub enum Played {
    Differs { found: String },
    Went { rows: Items<StoreRow> },
}

/// Makes a table, on which the farm of the store's rows is opened, and takes the steps of the rows. The keeper's calls in `failing` fail.
pub(crate) fn play_part(
    alloc: Global,
    stored: &[StoreRow],
    failing: &[u64],
    rows: &[Row],
) -> Result<Played, AllocError> {
    match opened(alloc, stored, failing) {
        Ok((farm, keeper)) => over_table(alloc, farm, keeper, rows, failing.len()),
        Err(OpenFault::Store) => differs(alloc, "the store failed as it was loaded"),
        Err(OpenFault::BadRows) => differs(alloc, "the store's rows are no farm"),
        Err(OpenFault::NoMemory) => Err(AllocError),
    }
}

fn differs(alloc: Global, found: &str) -> Result<Played, AllocError> {
    let found = String::from_str(alloc, found)?;
    Ok(Played::Differs { found })
}

// Takes the steps on a table of its own.
fn over_table(
    alloc: Global,
    farm: Farm,
    keeper: MemoryKeeper,
    rows: &[Row],
    failing: usize,
) -> Result<Played, AllocError>
    requires { IsKeptBy farm keeper }
{
    let (table, seat) = Table::make(alloc)?;
    play_on::<Brand>(alloc, &table, seat, farm, keeper, rows, failing)
}

// Opens the farm and takes the steps on this table.
fn play_on<N: Naming>(
    alloc: Global,
    table: &Table,
    seat: Seat,
    farm: Farm,
    keeper: MemoryKeeper,
    rows: &[Row],
    failing: usize,
) -> Result<Played, AllocError>
    requires table { table.now ≡ N.table }
    requires seat { IsSeatOf table.now seat × (view seat ≡ first_view) }
    requires kept { IsKeptBy farm keeper }
{
    let recorder: Recorder<MemoryKeeper, N> = recorder_on(alloc, farm, keeper, table, seat);
    play_with(alloc, table, recorder, rows, failing)
}

// Opens the farm, and takes the steps beside a seat that looks at words.
fn play_with<N: Naming>(
    alloc: Global,
    table: &Table,
    recorder: Recorder<MemoryKeeper, N>,
    rows: &[Row],
    failing: usize,
) -> Result<Played, AllocError>
    requires table { table.now ≡ N.table }
{
    let mut recorder = recorder;
    match begun(alloc, table, &mut recorder) {
        Ok(Some(reader)) => {
            let play = Play {
                recorder,
                reader,
                a: None,
                b: None,
                p: None,
                q: None,
            };
            play_all(alloc, table, play, rows, failing)
        }
        Ok(None) => {
            drop(recorder);
            differs(alloc, "the opening isn't recorded")
        }
        Err(_) => {
            drop(recorder);
            Err(AllocError)
        }
    }
}

// Records the opening of the farm, and splits a seat off.
fn begun<N: Naming>(
    alloc: Global,
    table: &Table,
    recorder: &mut Recorder<MemoryKeeper, N>,
) -> Result<Option<Reader<N>>, AllocError>
    requires table { table.now ≡ N.table }
{
    let answer = open(alloc, table, recorder)?;
    if answer.as_str() != "ok" {
        return Ok(None);
    }
    match split_off(table, recorder) {
        Ok(seat) => Ok(Some(Reader::make(seat))),
        Err(_) => Ok(None),
    }
}

// Commits the opening.
fn open<N: Naming>(
    alloc: Global,
    table: &Table,
    recorder: &mut Recorder<MemoryKeeper, N>,
) -> Result<String, AllocError>
    requires table { table.now ≡ N.table }
{
    let opened = Entry {
        moment: 0,
        act: Act::Opened,
    };
    let answer = commit_entry(alloc, table, recorder, &opened);
    drop(opened);
    answer
}

// Takes the steps.
fn play_all<N: Naming>(
    alloc: Global,
    table: &Table,
    play: Play<N>,
    rows: &[Row],
    failing: usize,
) -> Result<Played, AllocError>
    requires table { table.now ≡ N.table }
{
    let mut play = play;
    match difference_in(alloc, table, &mut play, rows) {
        Ok(None) => ended(alloc, play, failing),
        Ok(Some(found)) => {
            drop(play);
            Ok(Played::Differs { found })
        }
        Err(_) => {
            drop(play);
            Err(AllocError)
        }
    }
}

// Takes the steps in turn, up to the first one that doesn't answer as its row tells.
fn difference_in<N: Naming>(
    alloc: Global,
    table: &Table,
    play: &mut Play<N>,
    rows: &[Row],
) -> Result<Option<String>, AllocError>
    requires table { table.now ≡ N.table }
{
    for row in rows {
        if let Some(found) = row_difference(alloc, table, play, row)? {
            return Ok(Some(found));
        }
    }
    Ok(None)
}

// Takes a row's step, and says what it answers, if that isn't what the row tells.
fn row_difference<N: Naming>(
    alloc: Global,
    table: &Table,
    play: &mut Play<N>,
    row: &Row,
) -> Result<Option<String>, AllocError>
    requires table { table.now ≡ N.table }
{
    let Row::Step {
        moment,
        step,
        answer,
    } = row
    else {
        return Ok(None);
    };
    let Some(asked) = step_of(step.as_str()) else {
        return Ok(Some(format!(in alloc; "`{}` is no step", step.as_str())?));
    };
    let came = take_step(alloc, table, play, &asked, *moment)?;
    if came.as_str() == answer.as_str() {
        return Ok(None);
    }
    Ok(Some(format!(in alloc;
        "`{}` answers `{came}` and should answer `{}`",
        step.as_str(),
        answer.as_str()
    )?))
}

// The rows that the recorder's keeper has at the end.
fn ended<N: Naming>(alloc: Global, play: Play<N>, failing: usize) -> Result<Played, AllocError> {
    let Play {
        recorder,
        reader,
        a,
        b,
        p,
        q,
    } = play;
    drop(reader);
    drop(a);
    drop(b);
    drop(p);
    drop(q);
    let (keeper, seat) = recorder.close();
    drop(seat);
    went(alloc, keeper, failing)
}

// The rows that the keeper has.
fn went(alloc: Global, keeper: MemoryKeeper, failing: usize) -> Result<Played, AllocError> {
    let mut keeper = keeper;
    let rows = rows_in(alloc, &mut keeper, failing);
    drop(keeper);
    Ok(Played::Went { rows: rows? })
}
