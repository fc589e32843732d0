//! What hinders an entry beside others.

use farm_types::{Cores, Kb};

/// Why an entry that the farm takes isn't recorded, where others share the words. `Held`: it gives a host another size, while room there is held or
/// claimed; so much of it was free. `Spent`: the journal has all the entries that it can count. Neither comes to a recorder alone that has room.
#[derive(Clone, Copy, Debug, PartialEq, Eq)]
pub enum Hindered {
    Held { cores: Cores, memory: Kb },
    Spent,
}
