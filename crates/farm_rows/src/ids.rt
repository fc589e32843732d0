//! How many ids of rows there are for the layers of a job and for the groups of a depend.

ghost use Rattle.std.specs.Prelude.{◌≡◌, ◌+◌, ◌*◌};

/// How many ids there are for the layers of each job. A layer's id is so many times its job's number, and its place.
pub const LAYER_IDS: u64 = 64;

/// How many ids there are for the groups of each depend. A met group's id is so many times its depend's number, and its position.
pub const GROUP_IDS: u64 = 16_384;

/// The id of the layer at that place of a job.
pub fn layer_id(job: u32, place: u32) -> u64
    ensures { result ≡ LAYER_IDS * job + place }
{
    LAYER_IDS * u64::from(job) + u64::from(place)
}

/// The id of the met group at that position of a depend.
pub fn group_id(depend: u32, position: u32) -> u64
    ensures { result ≡ GROUP_IDS * depend + position }
{
    GROUP_IDS * u64::from(depend) + u64::from(position)
}
