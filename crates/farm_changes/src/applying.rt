//! Reserves and applies a change that was prepared.

ghost use Rattle.std.specs.Prelude.{◌≡◌, ◌<◌, ◌≤◌, ◌++◌, ◌∷◌, [], length, All, IfOk, OnOk, OnErr, Ok};
ghost use Rattle.alloc_tags.specs.Book.{check_of};
ghost use Rattle.farm_types.specs.Farm.{alloc_name};
ghost use Rattle.farm_types.specs.Hosts.{booted};
ghost use Rattle.farm_types.specs.Jobs.{with_job};
ghost use Rattle.farm_types.specs.Step.{lists_of, with_lists};
ghost use Rattle.host_book.specs.Book.{alloc_of, plan_of};
ghost use Rattle.job_book.specs.Layers.{spare_of};
ghost use Rattle.farm_books.specs.Books.{with_farm};
ghost use Rattle.farm_books.specs.Install.{IsPlacement};
ghost use Rattle.farm_books.specs.Limits.{with_limit};
ghost use Rattle.farm_draft.specs.Rows.{AreInstallable, put_lives, put_slots};
ghost use Rattle.farm_changes.specs.declared.change.Reserved.TheVariants as taken;
ghost use Rattle.farm_changes.specs.Change.{FitsLimit, FitsMore, IsReady, IsReserved, after_change, memory_of, reserved_of, with_more};

use crate::change::{Change, More, Reserved};
use farm_books::Books;
use farm_draft::Rows;
use farm_types::{BootLine, HostNo, JobSpec, Text};
use host_book::BootPlan;
use job_book::Placing;
use limit_book::LimitPlan;
use std::alloc::{AllocError, Global};

/// Takes the memory that the change needs, so that applying it takes none. The books are as before.
pub fn reserve(books: &mut Books, alloc: Global, change: &mut Change) -> Result<(), AllocError>
    ensures farm { books.new ≡ books.old }
    ensures ok { OnOk result (change.new ≡ reserved_of change.old) }
    ensures err { OnErr result (change.new ≡ change.old) }
{
    let memory = memory_for(books, alloc, &change.more)?;
    change.reserved = true;
    change.memory = memory;
    Ok(())
}

// The memory that a row with texts needs.
fn memory_for(books: &mut Books, alloc: Global, more: &More) -> Result<Reserved, AllocError>
    ensures farm { books.new ≡ books.old }
    ensures memory { IfOk result (λ memory. memory ≡ memory_of more.now) }
{
    match more {
        More::Alloc { facility, tag } => {
            let spare = books.reserve_alloc(alloc, facility.as_str(), tag.as_str())?;
            Ok(Reserved::Alloc(spare))
        }
        More::Limit { name, .. } => {
            Ok(Reserved::Limit(books.reserve_limit(alloc, name.as_str())?))
        }
        More::Boot { line, .. } => Ok(Reserved::Host(books.reserve_boot(alloc, line)?)),
        More::Job { spec, .. } => Ok(Reserved::Job(books.reserve_job(alloc, spec)?)),
        _ => Ok(Reserved::None),
    }
}

/// Applies a change that fits the books and whose memory was taken. It takes no memory.
pub fn apply(books: &mut Books, change: Change)
    requires ready { IsReady books.old.farm change }
    requires reserved { IsReserved change }
    ensures farm { books.new ≡ with_farm books.old (after_change books.old.farm change) }
    ensures hosts { length books.old.farm.hosts ≤ length books.new.farm.hosts }
{
    let moment = change.moment;
    books.advance_to(moment);
    install_rows(books, change.rows);
    install_more(books, moment, change.more, change.memory);
    books.watch(moment);
}

/// Takes the memory that the change needs, and applies it. At an `Err`, where memory ran out, the books are as before.
pub fn record(books: &mut Books, alloc: Global, change: Change) -> Result<(), AllocError>
    requires { IsReady books.old.farm change }
    ensures ok { OnOk result (books.new ≡ with_farm books.old (after_change books.old.farm change)) }
    ensures err { OnErr result (books.new ≡ books.old) }
    ensures hosts { length books.old.farm.hosts ≤ length books.new.farm.hosts }
{
    let mut change = change;
    reserve(books, alloc, &mut change)?;
    apply(books, change);
    Ok(())
}

// The rows are put in: lives of hosts, then slots.
fn install_rows(books: &mut Books, rows: Rows)
    requires hosts { All (λ e. e.0 < length books.old.farm.hosts) rows.hosts.items }
    requires slots { AreInstallable books.old.farm.subs books.old.farm.slots rows.slots.items }
    ensures { books.new ≡ with_farm books.old
        (record books.old.farm { hosts = put_lives books.old.farm.hosts rows.hosts.items; slots = put_slots books.old.farm.slots rows.slots.items }) }
{
    // There are at most 4,096 hosts, so that the number of one that is there is below that.
    let _hosts = books.count_hosts();
    for entry in &rows.hosts {
        books.install_life(HostNo(entry.0 as u16), entry.1);
    }
    for entry in &rows.slots {
        books.install_slot(entry.slot, &entry.row);
    }
}

// A row with texts is put in, in the memory that was taken for it.
fn install_more(books: &mut Books, moment: u64, more: More, memory: Reserved)
    requires fits { FitsMore books.old.farm more }
    requires memory { memory ≡ memory_of more }
    ensures { books.new ≡ with_farm books.old (with_more books.old.farm moment more) }
{
    match more {
        More::Nothing => {}
        More::Show { name } => books.install_show(name),
        More::Sub { sub, size, burst } => books.install_sub(sub, size, burst),
        More::Alloc { facility, tag } => alloc_in(books, memory, &facility, &tag),
        More::Limit { plan, name, most } => limit_in(books, memory, plan, &name, most),
        More::Boot { plan, line } => boot_in(books, memory, plan, &line, moment),
        More::Paused { job, paused } => books.install_paused(job, paused),
        More::Job { placing, spec } => job_in(books, memory, placing, spec),
    }
}

// An allocation is added, in the memory that was taken for it.
fn alloc_in(books: &mut Books, memory: Reserved, facility: &Text, tag: &Text)
    requires fits { check_of books.old.farm.allocs (alloc_name facility.now tag.now) ≡ Ok (length books.old.farm.allocs) }
    requires memory { memory ≡ taken.Alloc (record { facility = facility.now; tag = tag.now }) }
    ensures { books.new ≡ with_farm books.old (record books.old.farm {
      allocs = books.old.farm.allocs
          ++ record { facility = facility.now; tag = tag.now } ∷ [];
    }) }
{
    let Reserved::Alloc(spare) = memory else {
        unreachable!()
    };
    books.install_alloc(spare);
}

// A limit is set, in the memory that was taken for it.
fn limit_in(books: &mut Books, memory: Reserved, plan: LimitPlan, name: &Text, most: u32)
    requires fits { FitsLimit books.old.farm name.now plan }
    requires memory { memory ≡ taken.Limit name.now }
    ensures { books.new ≡ with_farm books.old (record books.old.farm { limits = with_limit books.old.farm.limits name.now plan most }) }
{
    let Reserved::Limit(spare) = memory else {
        unreachable!()
    };
    books.install_limit(spare, plan, most);
}

// A host boots, in the memory that was taken for it.
fn boot_in(books: &mut Books, memory: Reserved, plan: BootPlan, line: &BootLine, moment: u64)
    requires fits { plan_of books.old.farm.hosts line.now (alloc_of plan) ≡ Ok plan }
    requires memory { memory ≡ taken.Host line.now }
    ensures { books.new ≡ with_farm books.old (record books.old.farm { hosts = booted books.old.farm.hosts line.now (alloc_of plan) moment }) }
{
    let Reserved::Host(spare) = memory else {
        unreachable!()
    };
    books.install_boot(spare, plan, moment);
}

// A job is placed, in the memory that was taken for it.
fn job_in(books: &mut Books, memory: Reserved, placing: Placing, spec: JobSpec)
    requires fits { IsPlacement books.old.farm placing spec }
    requires memory { memory ≡ taken.Job (spare_of spec) }
    ensures { books.new ≡ with_farm books.old (with_lists books.old.farm (with_job (lists_of books.old.farm) placing.show placing.limits spec)) }
{
    let Reserved::Job(spare) = memory else {
        unreachable!()
    };
    books.install_job(spec, spare, placing);
}
