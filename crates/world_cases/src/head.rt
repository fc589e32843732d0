//! What a world begins with.

use crate::farm::record_line;
use crate::hosts::host_of;
use case_text::LineFault;
use farm_lines::{Request, RequestFault};
use farm_types::Items;
use json::Scratch;
use line_answers::farm_core::Farm;
use report_codec::read_request;
use rqd_core::RqdConfig;
use std::alloc::{AllocError, Global};

/// What a world begins with: the farm, the hosts in their first lives, and the requests that operators have sent.
#[derive(Drop)]
pub struct Head {
    pub farm: Farm,
    pub hosts: Items<RqdConfig>,
    pub requests: Items<Request>,
}

impl Head {
    /// The empty farm alone.
    pub fn make(alloc: Global) -> Result<Head, AllocError> {
        Ok(Head {
            farm: Farm::make(alloc)?,
            hosts: Items::new(alloc),
            requests: Items::new(alloc),
        })
    }

    /// The farm has recorded what a line asks for.
    pub fn record(&mut self, alloc: Global, line: &str) -> Result<(), LineFault> {
        record_line(alloc, &mut self.farm, line)
    }

    /// An operator has sent a line.
    pub fn ask(&mut self, alloc: Global, line: &str) -> Result<(), LineFault> {
        let request = request_of(alloc, line)?;
        self.requests.push(request)?;
        Ok(())
    }

    /// A host is there.
    pub fn add_host(&mut self, alloc: Global, words: &str) -> Result<(), LineFault> {
        let host = host_of(alloc, words)?;
        self.hosts.push(host)?;
        Ok(())
    }
}

// The request that a line is.
fn request_of(alloc: Global, line: &str) -> Result<Request, LineFault> {
    let mut scratch = Scratch::new(alloc);
    match read_request(alloc, line.as_bytes(), &mut scratch) {
        Ok(request) => Ok(request),
        Err(RequestFault::NoMemory) => Err(LineFault::NoMemory),
        Err(_) => Err(LineFault::Malformed),
    }
}
