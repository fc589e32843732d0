//! The program over a file that keeps its farm.

ghost use Rattle.std.specs.Prelude.{◌≡◌, Some};
ghost use Rattle.serving.specs.session.specs.Words.{IsScript, WordForm, form_of};

use crate::answering::answer;
use command_line::Status;
use farm_types::Text;
use sqlite::Start;
use store_file::{FileFault, open_keeper};

/// Runs the program over the farm that a file keeps. The file is held until the program ends. One that can't be opened is told on standard error.
pub fn answer_over_file<S: Start>(rt: &HostRuntime, words: &[Text], path: &str, start: S) -> Status
    requires { (form : WordForm) → form_of words.now ≡ Some form → IsScript form }
{
    match open_keeper(rt, path, start) {
        Ok(keeper) => {
            let (status, keeper) = answer(rt, words, keeper);
            let _closed = keeper.into_connection().close();
            status
        }
        Err(fault) => tell_fault(rt, path, fault),
    }
}

/// Tells on standard error why the file of a path can't be opened, and says the status for it.
pub fn tell_fault(rt: &HostRuntime, path: &str, fault: FileFault) -> Status {
    match fault {
        FileFault::NoMemory => Status::NoMemory,
        fault => {
            let _told = eprintln!(rt; "cuebot: {path}: {fault}");
            Status::StoreFailed
        }
    }
}
