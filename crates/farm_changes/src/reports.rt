//! The rows that a host's report leaves: by a draft, or the life of the host alone.

ghost use Rattle.std.specs.Prelude.{◌≡◌, ◌∷◌, [], true, length, IfOk};
ghost use Rattle.farm_types.specs.Farm.{changed_at};
ghost use Rattle.farm_types.specs.Hosts.{count_unheard, heard_row};
ghost use Rattle.farm_types.specs.Kept.{KeepsRows};
ghost use Rattle.farm_types.specs.Step.{at_moment, expire};
ghost use Rattle.farm_types.specs.declared.states.HostState.TheVariants as host_state;
ghost use Rattle.farm_draft.specs.Rows.{AreReady, installed};
ghost use Rattle.farm_changes.specs.RowsOf.{heard_farm};

use farm_books::Books;
use farm_draft::{Draft, Rows};
use farm_types::{HeardAct, HostNo, HostState};
use host_book::HostLife;
use std::alloc::{AllocError, Global};

/// A host is heard, once silent hosts went down, and its completions end attempts.
pub(crate) fn heard_rows(
    alloc: Global,
    books: &Books,
    moment: u64,
    host: HostNo,
    heard: &HeardAct,
) -> Result<Rows, AllocError>
    requires kept { KeepsRows books.now.farm }
    ensures farm { IfOk result (λ rows. installed (at_moment books.now.farm moment) rows
        ≡ heard_farm (expire (at_moment books.now.farm moment) moment) host moment heard.now) }
    ensures ready { IfOk result (λ rows. AreReady books.now.farm rows) }
{
    if is_word_alone(books, moment, heard) {
        life_rows(alloc, books, moment, host, heard.seq)
    } else {
        drafted_rows(alloc, books, moment, host, heard)
    }
}

// Whether the report is no more than a word of its host: nothing completes, and no host is silent.
fn is_word_alone(books: &Books, moment: u64, heard: &HeardAct) -> bool
    ensures done { result ≡ true → length heard.now.done ≡ 0 }
    ensures quiet { result ≡ true → count_unheard moment books.now.farm.hosts ≡ 0 }
{
    heard.done.is_empty() && !books.may_be_silent(moment)
}

// The host is up and was heard at the moment, with that sequence number, which is above the last one: so its life differs.
fn life_rows(
    alloc: Global,
    books: &Books,
    moment: u64,
    host: HostNo,
    seq: u64,
) -> Result<Rows, AllocError>
    ensures farm { IfOk result (λ rows. installed (at_moment books.now.farm moment) rows
        ≡ record (at_moment books.now.farm moment) { hosts = changed_at books.now.farm.hosts host (heard_row seq moment) }) }
    ensures ready { IfOk result (λ rows. AreReady books.now.farm rows) }
{
    let Some(life) = books.life(host) else {
        return Ok(Rows::none(alloc));
    };
    one_life(alloc, host, heard_life(&life, moment, seq))
}

// The life of a host that was heard at the moment.
fn heard_life(life: &HostLife, moment: u64, seq: u64) -> HostLife
    ensures { result ≡ record { state = host_state.Up; heard = moment; seq = seq; lock = life.now.lock } }
{
    HostLife {
        state: HostState::Up,
        heard: moment,
        seq,
        lock: life.lock,
    }
}

// The life of one host.
fn one_life(alloc: Global, host: HostNo, life: HostLife) -> Result<Rows, AllocError>
    ensures hosts { IfOk result (λ rows. rows.hosts.items ≡ (host, life) ∷ []) }
    ensures slots { IfOk result (λ rows. rows.slots.items ≡ []) }
{
    let mut rows = Rows::none(alloc);
    rows.hosts.push((u32::from(host.0), life))?;
    Ok(rows)
}

// The rows by a draft.
fn drafted_rows(
    alloc: Global,
    books: &Books,
    moment: u64,
    host: HostNo,
    heard: &HeardAct,
) -> Result<Rows, AllocError>
    requires kept { KeepsRows books.now.farm }
    ensures farm { IfOk result (λ rows. installed (at_moment books.now.farm moment) rows
        ≡ heard_farm (expire (at_moment books.now.farm moment) moment) host moment heard.now) }
    ensures ready { IfOk result (λ rows. AreReady books.now.farm rows) }
{
    let mut draft = Draft::new(alloc, books, moment);
    draft.expire()?;
    draft.hear(host, heard.seq)?;
    draft.end_all(host, heard.boot, heard.done.as_slice())?;
    draft.into_rows(alloc)
}
