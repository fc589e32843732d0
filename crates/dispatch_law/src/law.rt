//! The law: a function that does nothing, whose contract it is.

ghost use Rattle.std.specs.Prelude.{◌≡◌, ℕ, Some, slice_get};
ghost use Rattle.farm_types.specs.declared.rows.HostRow as host_row;
ghost use Rattle.farm_types.specs.Dispatch.{ranks_from, sorted_ranks};
ghost use Rattle.farm_types.specs.Farm.{Farm};
ghost use Rattle.farm_types.specs.Kept.{KeepsRows};
ghost use Rattle.dispatch_law.specs.ByIndex.{ranks_by_index};

/// In a farm that keeps what every farm keeps, the order of dispatch for a host, which sorts the ranks of all slots, is the
/// one that an index lists: the subscriptions to the host's allocation by their ratio, the ready jobs of each one's show by
/// priority, the layers of each in order, and the waiting frames of each in range order.
pub fn dispatch_follows_the_index()
    ensures { (f : Farm) (host : ℕ) (row : host_row.HostRow) → KeepsRows f → slice_get f.hosts host ≡ Some row
        → ranks_by_index f host row.alloc ≡ sorted_ranks f (ranks_from f host 0 f.slots) }
{}
