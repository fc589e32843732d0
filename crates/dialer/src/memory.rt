//! A dialer in memory.

ghost use Rattle.std.specs.Prelude.{◌≡◌, ◌++◌, ◌∷◌, [], Some, IfOk, OnErr, OnOk, length, option_map, slice_get};
ghost use Rattle.cue_io.specs.Growth.{Grows};
ghost use Rattle.dialer.specs.Dials.{came_by, connected, dial_told, place_at};
ghost use Rattle.dialer.specs.Memory.{Joins, bytes_over, dials_of, new_connection, read_faults_of, source_left, sink_written, write_faults_of};

use crate::dial::{DialFault, Dialer};
use cue_io::{MemorySink, MemorySource};
use farm_types::Text;
use std::alloc::{AllocError, Global};
use std::marker::Model;

/// How connections in memory move bytes: those that come and how many a read gives at most, how many are taken in all and by one write, and which reads and
/// writes fail, by their number from 1.
#[derive(Drop)]
pub struct MemoryLink {
    pub bytes: Vec<u8>,
    pub read_most: usize,
    pub failing_reads: Vec<u64>,
    pub capacity: usize,
    pub write_most: usize,
    pub failing_writes: Vec<u64>,
}

// A place that was asked for.
#[derive(Drop)]
struct Asked {
    address: Text,
    port: u16,
}

/// A dialer that connects to a source and a sink in memory, by the same link each time; and never, where it has none.
#[derive(Drop)]
pub struct MemoryDialer {
    alloc: Global,
    link: Option<MemoryLink>,
    asked: Vec<Asked>,
}

impl Model for MemoryDialer {
    ghost use Rattle.dialer.specs.Memory.{Linked, bytes_over, places_of};

    ghost Value = { Linked };

    ghost view = { λ d. record { has = bytes_over d.link; asked = places_of d.asked.items } };
}

impl MemoryDialer {
    /// A dialer that wasn't asked for a connection yet.
    pub fn make(alloc: Global, link: Option<MemoryLink>) -> MemoryDialer
        ensures { result ≡ record { has = bytes_over link; asked = [] } }
    {
        MemoryDialer {
            alloc,
            link,
            asked: Vec::new(alloc),
        }
    }

    /// How many connections it was asked for.
    pub fn count(&self) -> usize
        ensures { result ≡ length self.now.asked }
    {
        self.asked.len()
    }

    /// The address and the port of a connection that it was asked for, by its number from 0.
    pub fn place(&self, at: usize) -> Option<(&str, u16)>
        ensures { option_map (λ place. place_at place.0.now place.1) result ≡ slice_get self.now.asked at }
    {
        let asked = self.asked.get(at)?;
        Some((asked.address.as_str(), asked.port))
    }

    // Tells a connection that was asked for.
    fn tell(&mut self, address: &str, port: u16) -> Result<(), AllocError>
        ensures ok { OnOk result (self.new ≡ record self.old { asked = self.old.asked ++ place_at address.now port ∷ [] }) }
        ensures err { OnErr result (self.new ≡ self.old) }
    {
        let address = Text::from_str(self.alloc, address)?;
        self.asked.push(Asked { address, port })?;
        Ok(())
    }

    // Makes the source and the sink of a connection.
    fn join(&self) -> Result<(MemorySource, MemorySink), DialFault>
        ensures { Joins self.now.has (came_by source_left read_faults_of sink_written write_faults_of result) }
    {
        match &self.link {
            Some(link) => Ok(ends_of(self.alloc, link)?),
            None => Err(DialFault::Failed),
        }
    }
}

// The source and the sink of a connection over a link.
fn ends_of(alloc: Global, link: &MemoryLink) -> Result<(MemorySource, MemorySink), AllocError>
    ensures { IfOk result (λ ends. connected source_left read_faults_of sink_written write_faults_of ends ≡ new_connection link.now.bytes.items) }
{
    let source = MemorySource::make(
        alloc,
        &link.bytes,
        link.read_most.max(1),
        &link.failing_reads,
    )?;
    let sink = MemorySink::make(alloc, link.write_most, link.capacity, &link.failing_writes)?;
    Ok((source, sink))
}

impl Dialer for MemoryDialer {
    type In = MemorySource;

    type Out = MemorySink;

    ghost dialled = { λ d. Some (dials_of d) };

    fn dial(&mut self, address: &str, port: u16) -> Result<(MemorySource, MemorySink), DialFault>
        ensures told { Grows (Some (dials_of self.old)) (Some (dials_of self.new))
            (dial_told (place_at address.now port) (came_by source_left read_faults_of sink_written write_faults_of result)) }
        ensures joins { Joins self.old.has (came_by source_left read_faults_of sink_written write_faults_of result) }
        ensures has { self.new.has ≡ self.old.has }
    {
        match self.join() {
            Ok(ends) => {
                self.tell(address, port)?;
                Ok(ends)
            }
            Err(DialFault::Failed) => {
                self.tell(address, port)?;
                Err(DialFault::Failed)
            }
            Err(DialFault::NoMemory) => Err(DialFault::NoMemory),
        }
    }
}
