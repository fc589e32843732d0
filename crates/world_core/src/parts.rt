//! What a world has, and how it is made.

ghost use Rattle.std.specs.Prelude.{◌≡◌, map, IfOk};
ghost use Rattle.world_law.specs.World.{made_world, new_host, operators_line};

use crate::history::History;
use client_codec::write_request;
use farm_lines::Request;
use farm_types::{Entry, Items};
use line_answers::farm_core::Farm;
use rqd_core::RqdConfig;
use std::alloc::{AllocError, Global};
use std::marker::Model;
use world_host::{Host, copy_config};
use world_law::{Event, Sent, Told};

/// One scheduler, many render hosts, and all lines that were ever sent between them.
#[derive(Drop)]
pub struct Parts {
    pub(crate) now: History,
    // Those that one refused commit more would have made, in order.
    pub(crate) further: Vec<History>,
    // The farm with which the scheduler started last, before its entry Opened, and the entries since then.
    pub(crate) opened: Farm,
    pub(crate) entries: Items<Entry>,
    pub(crate) hosts: Vec<Host>,
    pub(crate) sent: Items<Sent>,
    pub(crate) told: Items<Told>,
    pub(crate) events: Items<Event>,
}

impl Model for Parts {
    ghost use Rattle.world_law.specs.World as types;

    ghost Value = { types.World };

    ghost use Rattle.world_core.specs.Inside.{world_of};

    ghost view = { world_of };
}

/// What a new world takes memory for.
#[derive(Drop)]
pub(crate) struct FirstParts {
    pub(crate) opened: Farm,
    pub(crate) hosts: Vec<Host>,
    pub(crate) sent: Items<Sent>,
}

/// A world in which nothing has happened.
pub(crate) fn made(
    alloc: Global,
    farm: Farm,
    configs: &[RqdConfig],
    requests: &[Request],
) -> Result<Parts, AllocError>
    ensures { IfOk result (λ world. world ≡ made_world farm configs.now requests.now) }
{
    match first_parts(alloc, &farm, configs, requests) {
        Ok(first) => Ok(Parts {
            now: History {
                farm,
                counted: Items::new(alloc),
            },
            further: Vec::new(alloc),
            opened: first.opened,
            entries: Items::new(alloc),
            hosts: first.hosts,
            sent: first.sent,
            told: Items::new(alloc),
            events: Items::new(alloc),
        }),
        Err(_) => {
            drop(farm);
            Err(AllocError)
        }
    }
}

// A copy of the farm, the hosts in their first lives, and the lines of the requests.
fn first_parts(
    alloc: Global,
    farm: &Farm,
    configs: &[RqdConfig],
    requests: &[Request],
) -> Result<FirstParts, AllocError>
    ensures { IfOk result (λ first. (first.opened ≡ farm.now) × (first.hosts.items ≡ map new_host configs.now) × (first.sent ≡ map operators_line requests.now)) }
{
    let hosts = first_hosts(alloc, configs)?;
    let sent = operators_lines(alloc, requests)?;
    let opened = farm.copy(alloc)?;
    Ok(FirstParts {
        opened,
        hosts,
        sent,
    })
}

// Hosts in their first lives.
fn first_hosts(alloc: Global, configs: &[RqdConfig]) -> Result<Vec<Host>, AllocError>
    ensures { IfOk result (λ hosts. hosts.items ≡ map new_host configs.now) }
{
    let mut hosts = Vec::new(alloc);
    for config in configs {
        hosts.push(first_host(alloc, config)?)?;
    }
    Ok(hosts)
}

fn first_host(alloc: Global, config: &RqdConfig) -> Result<Host, AllocError>
    ensures { IfOk result (λ host. host ≡ new_host config.now) }
{
    Host::make(alloc, copy_config(alloc, config)?)
}

// The lines of operators' requests.
fn operators_lines(alloc: Global, requests: &[Request]) -> Result<Items<Sent>, AllocError>
    ensures { IfOk result (λ lines. lines ≡ map operators_line requests.now) }
{
    let mut lines = Items::new(alloc);
    for request in requests {
        lines.push(Sent {
            host: None,
            line: write_request(alloc, request)?,
        })?;
    }
    Ok(lines)
}
