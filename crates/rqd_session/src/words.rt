//! The words of the daemon.

ghost use Rattle.std.specs.Prelude.{◌≡◌, is_some, option_map, IfOk};
ghost use Rattle.farm_lines.specs.Request.{alloc_of_name};
ghost use Rattle.rqd_session.specs.Words.{amount_of, are_names, asked_of, asked_words, rounds_of};

use farm_lines::{is_number, number_of, read_cores, split_at_point};
use farm_types::{Cores, Kb, Text, is_name, is_tag};
use rqd_core::RqdConfig;
use std::alloc::{AllocError, Global};

/// The most rounds.
pub(crate) const MOST_ROUNDS: u32 = 1_000_000_000;

/// The greatest memory (KB) and the greatest nonce.
pub(crate) const MOST_NUMBER: u64 = 18_446_744_073_709_551_615;

/// What valid words say: a host's name, the name of its allocation, its cores and memory, the number of this life, and how many rounds are made.
#[derive(Clone, Copy, Debug)]
pub(crate) struct AskedWords<'a> {
    pub name: &'a str,
    pub alloc: &'a str,
    pub cores: Cores,
    pub memory: Kb,
    pub nonce: u64,
    pub rounds: u32,
}

/// What the words say. None exactly where they are invalid.
pub(crate) fn read_words(words: &[Text]) -> Option<AskedWords<'_>>
    ensures { option_map asked_words result ≡ asked_of words.now }
{
    match words {
        [name, alloc, cores, memory, nonce, rounds] => {
            let cores = read_cores(cores.as_str())?;
            let memory = read_amount(memory.as_str())?;
            let nonce = read_amount(nonce.as_str())?;
            let (name, alloc) = (name.as_str(), alloc.as_str());
            if !are_names(name, alloc) {
                return None;
            }
            let rounds = read_rounds(rounds.as_str())?;
            Some(AskedWords {
                name,
                alloc,
                cores,
                memory: Kb(memory),
                nonce,
                rounds,
            })
        }
        _ => None,
    }
}

impl<'a> AskedWords<'a> {
    /// What the host tells of itself.
    pub fn config(&self, alloc: Global) -> Result<RqdConfig, AllocError>
        ensures { IfOk result (λ config. config ≡ (asked_words self.now).config) }
    {
        Ok(RqdConfig {
            name: Text::from_str(alloc, self.name)?,
            alloc: Text::from_str(alloc, self.alloc)?,
            cores: self.cores,
            memory: self.memory,
            nonce: self.nonce,
        })
    }
}

// Whether these are a host's name and the name of an allocation.
fn are_names(name: &str, alloc: &str) -> bool
    ensures { result ≡ are_names name.now alloc.now }
{
    is_name(name) && is_alloc_name(alloc)
}

// Whether the text is a facility, a point, and a tag.
fn is_alloc_name(name: &str) -> bool
    ensures { result ≡ is_some (alloc_of_name name.now) }
{
    let (facility, tag) = split_at_point(name);
    match tag {
        Some(tag) => is_tag(facility) && is_tag(tag),
        None => false,
    }
}

// The number that 1 to 20 digits write, where it is one of 64 bits.
fn read_amount(text: &str) -> Option<u64>
    ensures { result ≡ amount_of text.now }
{
    if is_number(text, 20) {
        text.parse().ok()
    } else {
        None
    }
}

// The number of rounds that 1 to 10 digits write.
fn read_rounds(text: &str) -> Option<u32>
    ensures { result ≡ rounds_of text.now }
{
    let rounds = number_of(text)?;
    if 1 <= rounds && rounds <= u64::from(MOST_ROUNDS) {
        Some(rounds as u32)
    } else {
        None
    }
}
