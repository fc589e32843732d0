//! What differs first between what a case tells and what came.

use crate::case::Case;
use crate::folder::new_folder;
use case_text::{line_difference, take_lines};
use std::alloc::AllocError;
use std::fs;

/// Takes the steps of a case, behind the shared lines of its file, in a folder of its own, and says what differed first from what it tells.
pub fn difference(
    rt: &HostRuntime,
    shared: &str,
    told: &str,
) -> Result<Option<String>, AllocError> {
    let folder = match new_folder(rt) {
        Ok(folder) => folder,
        Err(error) => {
            return Ok(Some(format!(in rt.alloc(); "no folder was made for it: {error}")?));
        }
    };
    let found = difference_in(rt, folder.as_str(), shared, told);
    let _ = fs::remove_dir_all(rt, folder.as_path());
    found
}

fn difference_in(
    rt: &HostRuntime,
    folder: &str,
    shared: &str,
    told: &str,
) -> Result<Option<String>, AllocError> {
    let alloc = rt.alloc();
    let mut case = Case::over(rt, folder);
    for lines in [shared, told] {
        if let Some(line) = take_lines(&mut case, alloc, lines)? {
            return Ok(Some(format!(in alloc; "the case has a malformed line: {line}")?));
        }
    }
    line_difference(alloc, "line", &case.told, &case.came)
}
