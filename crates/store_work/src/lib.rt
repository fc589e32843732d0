//! Work over keepers of rows in SQLite databases: in files, and on disks in memory that stop.
#![tactic(auto)]

mod disks;
mod files;
mod stores;
mod work;

pub use disks::{Contents, Stop, StoppingDisk, bytes_of, has_stopped};
pub use files::{make_database, work_over_file};
pub use stores::{DiskFault, Reached, Worked, work_over_disks};
pub use work::Work;
