//! What an entry leaves of hosts, subscriptions and limits.

ghost use Rattle.std.specs.Prelude.{◌≡◌, ◌⊎◌, ℕ, true, Some, is_some, slice_get};
ghost use Rattle.booking_rule.specs.Link.{burst_at, host_alloc, host_cores, host_memory, most_at, stand_at};
ghost use Rattle.farm_rows.specs.Changes.{row_at};
ghost use Rattle.farm_rows.specs.declared.row_key.RowKey.TheVariants.{Host, Limit, Sub};
ghost use Rattle.farm_types.specs.declared.boot.BootLine.{BootLine};
ghost use Rattle.farm_types.specs.declared.entry.Act.TheVariants.{Boot};
ghost use Rattle.farm_types.specs.declared.entry.Entry.{Entry};
ghost use Rattle.farm_types.specs.declared.rows.HostRow.{HostRow};
ghost use Rattle.farm_types.specs.declared.rows.LimitRow.{LimitRow};
ghost use Rattle.farm_types.specs.Farm.{Farm, host_named, sub_at};
ghost use Rattle.farm_types.specs.Kept.{IsKeptFarm};
ghost use Rattle.farm_types.specs.Run.{IsLegalStep};
ghost use Rattle.farm_types.specs.Step.{after};

/// A host that is there stays, of the same allocation.
pub fn hosts_grow()
    ensures { (f : Farm) (e : Entry) (host : ℕ) (row : HostRow) → IsKeptFarm f → IsLegalStep f e → slice_get f.hosts host ≡ Some row
        → (now : HostRow) × (slice_get (after f e).hosts host ≡ Some now) × (host_alloc (after f e) host ≡ host_alloc f host) }
{}

/// A host whose row is the same in two farms has the same size and allocation in both.
pub fn hosts_stay()
    ensures { (f g : Farm) (host : ℕ) → row_at g (Host host) ≡ row_at f (Host host)
        → (host_cores g host ≡ host_cores f host) × (host_memory g host ≡ host_memory f host) × (host_alloc g host ≡ host_alloc f host) }
{}

/// A subscription whose row is the same in two farms has one burst in both, and so a limit lets as many frames run.
pub fn bursts_stay()
    ensures burst { (f g : Farm) (sub : ℕ) → row_at g (Sub sub) ≡ row_at f (Sub sub) → burst_at g sub ≡ burst_at f sub }
    ensures most { (f g : Farm) (limit : ℕ) → row_at g (Limit limit) ≡ row_at f (Limit limit) → most_at g limit ≡ most_at f limit }
{}

/// A host that is there keeps its size, or the entry is a boot of it, and no frame runs on it afterwards.
pub fn sizes_change_by_boots()
    ensures { (f : Farm) (e : Entry) (host : ℕ) → IsKeptFarm f → IsLegalStep f e → (row : HostRow) → slice_get f.hosts host ≡ Some row
        → ((host_cores (after f e) host ≡ host_cores f host) × (host_memory (after f e) host ≡ host_memory f host))
        ⊎ ((line : BootLine) × (e.act ≡ Boot line) × (host_named f line.host ≡ Some host)
        × ((n : ℕ) → (stand_at (after f e) n).phase ≡ 4 → (stand_at (after f e) n).host ≡ host → ⊥)) }
{}

/// A subscription that is there stays there, and so does a limit.
pub fn subs_stay()
    ensures limit { (f : Farm) (e : Entry) (limit : ℕ) (row : LimitRow) → slice_get f.limits limit ≡ Some row
        → (now : LimitRow) × (slice_get (after f e).limits limit ≡ Some now) }
    ensures sub { (f : Farm) (e : Entry) (sub : ℕ) → is_some (sub_at f sub) ≡ true → is_some (sub_at (after f e) sub) ≡ true }
{}
