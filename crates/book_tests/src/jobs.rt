//! The book of jobs.

use cue_json::object_of;
use farm_types::{FrameState, Items, JobNo, ShowNo, Slot, Version};
use job_book::Jobs;
use job_spec::read_spec;
use json::Scratch;
use std::alloc::Global;
use std::test::Fail;

const SPEC: &str =
    r#"{"name":"a","show":"film","facility":"farm","layers":[{"name":"render","range":"1-2","command":"true"}]}"#;

// A book with the job of the spec, where it is taken.
fn book_with(alloc: Global, spec: &str) -> Result<Jobs, Fail> {
    let mut book = Jobs::make(alloc)?;
    let mut scratch = Scratch::new(alloc);
    let object = object_of(alloc, spec.as_bytes(), &mut scratch)?;
    let spec = read_spec(alloc, &object)?;
    let placing = book.check(alloc, &spec, ShowNo(0), Items::new(alloc))?;
    let reserved = book.reserve(alloc, &spec)?;
    book.place(spec, reserved, placing);
    Ok(book)
}

#[test]
fn a_copy_finds_a_job_and_its_frames(rt: HostRuntime) -> Result<(), Fail> {
    let book = book_with(rt.alloc(), SPEC)?;
    let copy = book.copy(rt.alloc())?;
    assert_eq!(rt; copy.find("a"), Some(JobNo(1)));
    assert_eq!(rt; copy.slot(JobNo(1), 0, 1), Some(Slot(1)));
    assert_eq!(rt;
        copy.state(Slot(0)),
        (Some(FrameState::Waiting), Version(0))
    );
    assert!(rt; copy.state(Slot(1)).0.is_some());
    assert_eq!(rt; copy.frame(Slot(1)).number, 2);
    assert!(rt; copy.job(JobNo(1)).is_some());
    assert_eq!(rt; copy.counts(JobNo(1)).waiting, 2);
    Ok(())
}
