//! Files of the machine are texts of job specs.
use cue_tool::{DiskFiles, SpecFault, SpecFiles};
use std::alloc::Global;
use std::os::unix::fs::PermissionsExt;
use std::path::PathBuf;
use std::rt::{Clock, Runtime};
use std::test::Fail;
use std::{env, fs};

// A folder that wasn't there, among the machine's temporary files.
fn new_folder<R: Runtime + AllocGlobal>(rt: &R) -> Result<PathBuf, Fail> {
    let now = rt.since_1970()?;
    let name = format!(in rt.alloc(); "edge-tests-{}-{}", now.as_secs(), now.subsec_nanos())?;
    let folder = env::temp_dir(rt)?.join(rt.alloc(), name.as_str())?;
    fs::create_dir(rt, folder.as_path())?;
    Ok(folder)
}

// Why the file of that path gives no text, if it gives none.
fn fault<F: SpecFiles>(alloc: Global, files: &mut F, path: &str) -> Option<SpecFault> {
    match files.read(alloc, path) {
        Ok(_) => None,
        Err(fault) => Some(fault),
    }
}

#[test]
fn a_file_is_read_by_its_own_name(rt: HostRuntime) -> Result<(), Fail> {
    let alloc = rt.alloc();
    let folder = new_folder(&rt)?;
    let one = folder.join(alloc, "one")?;
    let two = folder.join(alloc, "two")?;
    fs::write(&rt, one.as_path(), "first h\u{e9}")?;
    fs::write(&rt, two.as_path(), "second\n")?;
    let mut files = DiskFiles::make(rt.clone()?);
    assert!(rt; files.read(alloc, two.as_str())?.is("second\n"));
    assert!(rt; files.read(alloc, one.as_str())?.is("first h\u{e9}"));
    assert!(rt; files.read(alloc, two.as_str())?.is("second\n"));
    fs::remove_dir_all(&rt, folder.as_path())?;
    Ok(())
}

#[test]
fn a_file_that_gives_no_text_is_unreadable(rt: HostRuntime) -> Result<(), Fail> {
    let alloc = rt.alloc();
    let folder = new_folder(&rt)?;
    let there = folder.join(alloc, "there")?;
    let missing = folder.join(alloc, "missing")?;
    let binary = folder.join(alloc, "binary")?;
    fs::write(&rt, there.as_path(), "text")?;
    fs::write(&rt, binary.as_path(), b"\xff")?;
    let mut files = DiskFiles::make(rt.clone()?);
    assert_eq!(rt; fault(alloc, &mut files, there.as_str()), None);
    assert_eq!(rt;
        fault(alloc, &mut files, missing.as_str()),
        Some(SpecFault::Unreadable)
    );
    assert_eq!(rt;
        fault(alloc, &mut files, folder.as_str()),
        Some(SpecFault::Unreadable)
    );
    assert_eq!(rt;
        fault(alloc, &mut files, binary.as_str()),
        Some(SpecFault::Unreadable)
    );
    assert_eq!(rt; fault(alloc, &mut files, there.as_str()), None);
    fs::remove_dir_all(&rt, folder.as_path())?;
    Ok(())
}

#[test]
fn a_file_that_may_not_be_read_is_unreadable(rt: HostRuntime) -> Result<(), Fail> {
    let alloc = rt.alloc();
    let folder = new_folder(&rt)?;
    let closed = folder.join(alloc, "closed")?;
    fs::write(&rt, closed.as_path(), "text")?;
    fs::set_permissions(&rt, closed.as_path(), fs::Permissions::from_mode(0))?;
    let mut files = DiskFiles::make(rt.clone()?);
    // the superuser may read it all the same
    let wanted = match fs::read(&rt, closed.as_path()) {
        Ok(_) => None,
        Err(_) => Some(SpecFault::Unreadable),
    };
    assert_eq!(rt; fault(alloc, &mut files, closed.as_str()), wanted);
    fs::remove_dir_all(&rt, folder.as_path())?;
    Ok(())
}
