//! Rows of hosts.

ghost use Rattle.std.specs.Prelude.{◌≡◌, true, IfOk, OnOk, bytes_eq};
ghost use Rattle.std.specs.List.{list_any};
ghost use Rattle.farm_types.specs.Kept.{host_label};
ghost use Rattle.farm_rows.specs.declared.farm_row.FarmRow.TheVariants as kind;
ghost use Rattle.farm_rows.specs.Recovery.{comes_after, host_fits, key_of};
ghost use Rattle.stored_rows.specs.Told.{Accepts, told_with};

use crate::forms::is_formed_host;
use crate::stored_rows::StoredRows;
use farm_types::{HostNo, HostRow, MOST_HOSTS, Text};
use std::alloc::{AllocError, Global};

impl StoredRows {
    /// Takes the row of a host.
    pub(crate) fn add_host(
        &mut self,
        alloc: Global,
        host: HostNo,
        row: HostRow,
    ) -> Result<bool, AllocError>
        requires after { comes_after self.old.last (key_of (kind.Host host row)) ≡ true }
        ensures { IfOk result (λ taken. Accepts taken self.old (kind.Host host row) self.new) }
    {
        if !(self.lists.recorded && self.host_fits(host, &row)) {
            return Ok(false);
        }
        self.push_host(alloc, host, row)?;
        Ok(true)
    }

    // Whether it fits.
    fn host_fits(&self, host: HostNo, row: &HostRow) -> bool
        ensures { result ≡ host_fits self.now.farm host row.now }
    {
        host.0 as usize == self.lists.hosts.len()
            && (u32::from(host.0) < MOST_HOSTS
                && (is_formed_host(row)
                    && (!self.has_host(&row.name)
                        && ((row.alloc.0 as usize) < self.lists.allocs.len()
                            && row.heard <= self.lists.moment))))
    }

    // Whether a host has the name.
    fn has_host(&self, name: &Text) -> bool
        ensures { result ≡ list_any (λ host. bytes_eq (host_label host) name.now) self.now.farm.hosts }
    {
        self.hosts.has_name(name)
    }

    // It is the last of the hosts.
    fn push_host(&mut self, alloc: Global, host: HostNo, row: HostRow) -> Result<(), AllocError>
        requires after { comes_after self.old.last (key_of (kind.Host host row)) ≡ true }
        requires fits { host_fits self.old.farm host row ≡ true }
        ensures { OnOk result (self.new ≡ told_with self.old (kind.Host host row)) }
    {
        self.lists.hosts.reserve(1)?;
        self.hosts.add(alloc, &row.name)?;
        self.lists.hosts.push_reserved(row);
        self.last = Some((5, u64::from(host.0)));
        Ok(())
    }
}
