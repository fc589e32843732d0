//! What events name.

ghost use Rattle.std.specs.Prelude.{◌≡◌, option_copied, slice_get};
ghost use Rattle.world_core.specs.Naming.{HasFresh, HasFurther, HasHost, HasOne, HasRunning, IsFresh, IsRunning, Names};

use crate::history::History;
use crate::parts::Parts;
use farm_types::Attempt;
use world_host::Host;
use world_law::{Event, Sent, Told, WorldFault};

impl Parts {
    /// Whether what the event names is there, and its nonce is new. Which commit of a line the store refuses is told
    /// later: it takes memory to know.
    pub(crate) fn look_up(&self, event: &Event) -> Result<(), WorldFault>
        ensures { Names self.entry.now event.now result }
    {
        match event {
            Event::Send { host } => has_host(self.hosts.as_slice(), *host),
            Event::ToCue { line, .. } => has_line(self.sent.as_slice(), *line),
            Event::ToHost { line } => {
                has_told(self.told.as_slice(), self.hosts.as_slice(), *line)
            }
            Event::Ended { host, attempt, .. } => {
                has_running(self.hosts.as_slice(), *host, attempt)
            }
            Event::NewLife { host, nonce } => has_fresh(self.hosts.as_slice(), *host, *nonce),
            Event::Restart { further, .. } => has_further(self.further.as_slice(), *further),
        }
    }
}

// A host of that number.
fn has_host(hosts: &[Host], host: u32) -> Result<(), WorldFault>
    ensures { HasOne (slice_get hosts.now host) result }
{
    match hosts.get(host as usize) {
        Some(_) => Ok(()),
        None => Err(WorldFault::NoSuch),
    }
}

// A line of that number, to the scheduler.
fn has_line(sent: &[Sent], line: u32) -> Result<(), WorldFault>
    ensures { HasOne (slice_get sent.now line) result }
{
    match sent.get(line as usize) {
        Some(_) => Ok(()),
        None => Err(WorldFault::NoSuch),
    }
}

// A line of that number, to a host.
fn has_told(told: &[Told], hosts: &[Host], line: u32) -> Result<(), WorldFault>
    ensures { HasHost (slice_get told.now line) hosts.now result }
{
    let Some(told) = told_at(told, line) else {
        return Err(WorldFault::NoSuch);
    };
    has_host(hosts, told.host)
}

// A host of that number that runs the attempt.
fn has_running(hosts: &[Host], host: u32, attempt: &Attempt) -> Result<(), WorldFault>
    ensures { HasRunning (slice_get hosts.now host) attempt.now result }
{
    let Some(own) = host_at(hosts, host) else {
        return Err(WorldFault::NoSuch);
    };
    is_running(own, attempt)
}

fn is_running(host: &Host, attempt: &Attempt) -> Result<(), WorldFault>
    ensures { IsRunning host.now attempt.now result }
{
    if host.is_running(attempt) {
        Ok(())
    } else {
        Err(WorldFault::NoSuch)
    }
}

// A host of that number that never used the nonce.
fn has_fresh(hosts: &[Host], host: u32, nonce: u64) -> Result<(), WorldFault>
    ensures { HasFresh (slice_get hosts.now host) nonce result }
{
    let Some(own) = host_at(hosts, host) else {
        return Err(WorldFault::NoSuch);
    };
    is_fresh(own, nonce)
}

fn is_fresh(host: &Host, nonce: u64) -> Result<(), WorldFault>
    ensures { IsFresh host.now nonce result }
{
    if host.has_used(nonce) {
        Err(WorldFault::UsedNonce { nonce })
    } else {
        Ok(())
    }
}

// The farm as it is, or one of that number among those that one refused commit would have made.
fn has_further(further: &[History], place: Option<u32>) -> Result<(), WorldFault>
    ensures { HasFurther further.now place result }
{
    match place {
        None => Ok(()),
        Some(place) => has_history(further, place),
    }
}

fn has_history(further: &[History], place: u32) -> Result<(), WorldFault>
    ensures { HasOne (slice_get further.now place) result }
{
    match further.get(place as usize) {
        Some(_) => Ok(()),
        None => Err(WorldFault::NoSuch),
    }
}

// The host of that number.
fn host_at(hosts: &[Host], host: u32) -> Option<&Host>
    ensures { option_copied result ≡ slice_get hosts.now host }
{
    hosts.get(host as usize)
}

/// The line of that number, to a host.
pub(crate) fn told_at(told: &[Told], line: u32) -> Option<&Told>
    ensures { option_copied result ≡ slice_get told.now line }
{
    told.get(line as usize)
}
