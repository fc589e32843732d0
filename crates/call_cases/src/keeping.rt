//! A keeper of rows in memory, call by call.

use case_text::{LineFault, numbers_of};
use farm_keeper::{Batch, Keeper, KeeperFault, MemoryKeeper, Row};
use farm_types::Items;
use std::alloc::{AllocError, Global};

/// What a keeper in memory answers to calls, as `fails 2; commit 5.1=a -2.7; load; calls`: the numbers of the calls that are to
/// fail, and then the calls. A commit puts rows (KIND.ID=BYTES) and deletes rows (-KIND.ID).
pub fn answers(alloc: Global, given: &str) -> Result<String, LineFault> {
    let (fails, calls) = plan(given);
    let fails = numbers_of(alloc, fails)?;
    let mut keeper = MemoryKeeper::make(alloc, &fails)?;
    answers_to(alloc, &mut keeper, calls)
}

// The numbers of the calls that are to fail, and the calls.
fn plan(given: &str) -> (&str, &str) {
    match given.strip_prefix("fails ") {
        Some(rest) => rest.split_once("; ").unwrap_or((rest, "")),
        None => ("", given),
    }
}

// What the keeper answers to each of the calls.
fn answers_to(alloc: Global, keeper: &mut MemoryKeeper, calls: &str) -> Result<String, LineFault> {
    let mut answers = String::new(alloc);
    for call in calls.split("; ") {
        let answer = answer(alloc, keeper, call)?;
        add(&mut answers, ", ", answer.as_str())?;
    }
    Ok(answers)
}

// Adds a text, behind a separator where it isn't the first.
fn add(texts: &mut String, separator: &str, text: &str) -> Result<(), AllocError> {
    if !texts.is_empty() {
        texts.push_str(separator)?;
    }
    texts.push_str(text)
}

// What the keeper answers to a call.
fn answer(alloc: Global, keeper: &mut MemoryKeeper, call: &str) -> Result<String, LineFault> {
    match call {
        "load" => loaded(alloc, keeper),
        "refused" => refused(alloc, keeper),
        "calls" => Ok(format!(in alloc; "calls {}", keeper.calls())?),
        "faults" => Ok(format!(in alloc; "faults {}", keeper.faults())?),
        _ => committed(alloc, keeper, call),
    }
}

// The fault in a word.
fn told(alloc: Global, fault: KeeperFault) -> Result<String, LineFault> {
    match fault {
        KeeperFault::Failed => Ok(String::from_str(alloc, "failed")?),
        KeeperFault::NoMemory => Err(LineFault::NoMemory),
    }
}

// ---- what there is

// The rows that are loaded, in their order.
fn loaded(alloc: Global, keeper: &mut MemoryKeeper) -> Result<String, LineFault> {
    match keeper.load(alloc) {
        Ok(rows) => Ok(rows_text(alloc, rows.as_slice())?),
        Err(fault) => told(alloc, fault),
    }
}

// The rows, or `none`.
fn rows_text(alloc: Global, rows: &[Row]) -> Result<String, AllocError> {
    let mut text = String::new(alloc);
    for row in rows {
        add_row(alloc, &mut text, row)?;
    }
    text_or(alloc, text, "none")
}

// Adds a row, as `5.1=a`.
fn add_row(alloc: Global, text: &mut String, row: &Row) -> Result<(), AllocError> {
    let bytes = String::from_utf8_lossy(alloc, row.bytes.as_slice())?;
    let word = format!(in alloc; "{}.{}={bytes}", row.kind, row.id)?;
    add(text, " ", word.as_str())
}

// The text, or a word where it is empty.
fn text_or(alloc: Global, text: String, word: &str) -> Result<String, AllocError> {
    if text.is_empty() {
        String::from_str(alloc, word)
    } else {
        Ok(text)
    }
}

// The batches that were refused, in their order, or `none`.
fn refused(alloc: Global, keeper: &MemoryKeeper) -> Result<String, LineFault> {
    let mut batches = String::new(alloc);
    for batch in keeper.refused() {
        let text = batch_text(alloc, batch)?;
        add(&mut batches, " / ", text.as_str())?;
    }
    let batches = text_or(alloc, batches, "none")?;
    Ok(format!(in alloc; "refused {batches}")?)
}

// The puts and the deletes of a batch, or `nothing`.
fn batch_text(alloc: Global, batch: &Batch) -> Result<String, AllocError> {
    let mut text = String::new(alloc);
    for row in batch.puts.as_slice() {
        add_row(alloc, &mut text, row)?;
    }
    for (kind, id) in batch.deletes.as_slice() {
        let word = format!(in alloc; "-{kind}.{id}")?;
        add(&mut text, " ", word.as_str())?;
    }
    text_or(alloc, text, "nothing")
}

// ---- commits

// Whether a batch is taken, as `commit 5.1=a -2.7`.
fn committed(alloc: Global, keeper: &mut MemoryKeeper, call: &str) -> Result<String, LineFault> {
    let Some(words) = call.strip_prefix("commit") else {
        return Err(LineFault::Malformed);
    };
    let batch = batch_of(alloc, words)?;
    match keeper.commit(alloc, batch) {
        Ok(()) => Ok(String::from_str(alloc, "ok")?),
        Err(fault) => told(alloc, fault),
    }
}

// The batch that the words tell.
fn batch_of(alloc: Global, words: &str) -> Result<Batch, LineFault> {
    let mut batch = Batch {
        puts: Items::new(alloc),
        deletes: Items::new(alloc),
    };
    for word in words.split_whitespace() {
        add_word(alloc, &mut batch, word)?;
    }
    Ok(batch)
}

// Adds what a word tells to the batch.
fn add_word(alloc: Global, batch: &mut Batch, word: &str) -> Result<(), LineFault> {
    if let Some(key) = word.strip_prefix('-') {
        batch.deletes.push(key_of(key)?)?;
        return Ok(());
    }
    match word.split_once('=') {
        Some((key, text)) => add_put(alloc, batch, key, text),
        None => Err(LineFault::Malformed),
    }
}

fn add_put(alloc: Global, batch: &mut Batch, key: &str, text: &str) -> Result<(), LineFault> {
    let (kind, id) = key_of(key)?;
    let bytes = Items::from_vec(Vec::from_slice(alloc, text.as_bytes())?);
    batch.puts.push(Row { kind, id, bytes })?;
    Ok(())
}

// The kind and the id, as `5.1`.
fn key_of(text: &str) -> Result<(u8, u64), LineFault> {
    let Some((kind, id)) = text.split_once('.') else {
        return Err(LineFault::Malformed);
    };
    let (Ok(kind), Ok(id)) = (kind.parse::<u8>(), id.parse::<u64>()) else {
        return Err(LineFault::Malformed);
    };
    Ok((kind, id))
}
