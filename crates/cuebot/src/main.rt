//! The scheduler's program. It reads requests from standard input, a line each, and answers them: `cuebot demo` over the farm of the
//! demonstration, `cuebot script FILE` over the farm that the file keeps, and `cuebot script :memory:` over one that begins empty and goes with the program.
//! `cuebot load N` reads nothing: it runs the job of a load and tells a summary. `cuebot serve STORE PORT WORKERS CONNECTIONS` answers connections to a port
//! over such a farm, by workers beside each other, until so many were accepted.
#![tactic(auto)]

mod answering;
mod connections;
mod file_store;

ghost use Rattle.std.specs.Prelude.{◌≡◌, option_and_then, option_map};
ghost use Rattle.serving.specs.session.specs.Words.{file_of, form_of};

use crate::answering::answer;
use crate::connections::serve_store;
use crate::file_store::answer_over_file;
use command_line::{Status, exit_code, words_of};
use farm_keeper::MemoryKeeper;
use farm_types::Text;
use serving::serve_form;
use serving::session::form;
use sqlite::Unknown;
use std::process::ExitCode;
use std::sync::Wait;
use std::thread::Threads;

fn main(rt: HostRuntime) -> ExitCode {
    exit_code(run(&rt, &rt))
}

// Runs the program. `threads` is the machine too, as the one that may wait. Where memory runs out before the call, nothing is done.
fn run<R: Threads + Wait + Sync>(rt: &HostRuntime, threads: &R) -> Status {
    let Ok(words) = words_of(rt) else {
        return Status::NoMemory;
    };
    let words = words.as_slice();
    match serve_form(words) {
        Some(form) => serve_store(rt, threads, words, form),
        None => answer_words(rt, words),
    }
}

// Runs the program over the standard streams and the store that its words name. `Unknown` stands for what a file holds, and supposes that a write which a stop
// cut short leaves each byte old or new, so that most commits sync once.
fn answer_words(rt: &HostRuntime, words: &[Text]) -> Status {
    match file_of(words) {
        Some(path) => answer_over_file(rt, words, path, Unknown),
        None => answer_in_memory(rt, words),
    }
}

// The path of the file that keeps the farm, where the words name one.
fn file_of(words: &[Text]) -> Option<&str>
    ensures { option_map (λ path. path.now) result ≡ option_and_then file_of (form_of words.now) }
{
    form(words)?.file()
}

// Runs the program over a store in memory, which goes with it.
fn answer_in_memory(rt: &HostRuntime, words: &[Text]) -> Status {
    let Ok(keeper) = MemoryKeeper::make(rt.alloc(), &[]) else {
        return Status::NoMemory;
    };
    let (status, _keeper) = answer(rt, words, keeper);
    status
}
