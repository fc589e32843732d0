//! A host's configuration in its lives.

ghost use Rattle.std.specs.Prelude.{◌≡◌, IfOk};

use rqd_core::RqdConfig;
use std::alloc::{AllocError, Global};

/// An equal configuration.
pub fn copy_config(alloc: Global, config: &RqdConfig) -> Result<RqdConfig, AllocError>
    ensures { IfOk result (λ copy. copy ≡ config.now) }
{
    with_nonce(alloc, config, config.nonce)
}

/// The configuration with another nonce.
pub(crate) fn with_nonce(
    alloc: Global,
    config: &RqdConfig,
    nonce: u64,
) -> Result<RqdConfig, AllocError>
    ensures { IfOk result (λ other. other ≡ record config.now { nonce = nonce }) }
{
    Ok(RqdConfig {
        name: config.name.copy(alloc)?,
        alloc: config.alloc.copy(alloc)?,
        cores: config.cores,
        memory: config.memory,
        nonce,
    })
}
