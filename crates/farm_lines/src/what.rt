//! What a list's word names.

/// What is listed, whatever the job.
#[derive(Clone, Copy, Debug, PartialEq, Eq)]
pub enum What {
    Shows,
    Allocs,
    Subs,
    Limits,
    Hosts,
    Jobs,
    Layers,
    Frames,
    Depends,
    Procs,
}
