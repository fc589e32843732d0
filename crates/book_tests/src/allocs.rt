//! The book of allocations.

use alloc_tags::Allocs;
use farm_types::AllocNo;
use std::test::Fail;

#[test]
fn a_copy_finds_what_was_added(rt: HostRuntime) -> Result<(), Fail> {
    let mut book = Allocs::make(rt.alloc())?;
    assert!(rt; book.check("farm", "gpu").is_ok());
    let reserved = book.reserve(rt.alloc(), "farm", "gpu")?;
    book.add(reserved);
    let copy = book.copy(rt.alloc())?;
    assert_eq!(rt; copy.count(), 1);
    assert_eq!(rt; copy.find("farm.gpu"), Some(AllocNo(0)));
    Ok(())
}
