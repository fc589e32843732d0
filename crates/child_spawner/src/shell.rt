//! The shell that runs commands, and the one that ends them.

ghost use Rattle.std.specs.Prelude.{◌≡◌, ◌∷◌, [], codes, decimal, IfOk};
ghost use Rattle.std.specs.Process.{command_args, command_program};
ghost use Rattle.child_spawner.specs.Scripts.{end_script};

use std::alloc::{AllocError, Global};
use std::process::{Command, Stdio};

// Ends the process group of the number that it is given; or the process of that number, and then its group.
const END_SCRIPT: &str = "kill -s KILL -- -$1 || kill -s KILL $1 && { kill -s KILL -- -$1 || :; }";

/// `sh -c COMMAND` as the leader of a session and a process group, by `setsid`.
pub(crate) fn shell(alloc: Global, command: &str) -> Result<Command, AllocError>
    ensures program { IfOk result (λ c. command_program c ≡ codes "setsid") }
    ensures args { IfOk result (λ c. command_args c ≡ codes "sh" ∷ codes "-c" ∷ command.now ∷ []) }
{
    let mut shell = Command::new(alloc, "setsid")?;
    shell.arg("sh")?.arg("-c")?.arg(command)?;
    silence(&mut shell);
    Ok(shell)
}

/// The shell that ends a process group, and ends well where there was one. A child that hasn't become the leader of its group yet, which has started
/// nothing, is ended alone, and then its group, which it may have become the leader of meanwhile.
pub(crate) fn end_shell(alloc: Global, group: u32) -> Result<Command, AllocError>
    ensures program { IfOk result (λ c. command_program c ≡ codes "sh") }
    ensures args { IfOk result (λ c. command_args c ≡ codes "-c" ∷ end_script ∷ codes "sh" ∷ decimal group ∷ []) }
{
    let number = group.to_string(alloc)?;
    let mut shell = Command::new(alloc, "sh")?;
    shell
        .arg("-c")?
        .arg(END_SCRIPT)?
        .arg("sh")?
        .arg(number.as_str())?;
    silence(&mut shell);
    Ok(shell)
}

// Gives the program nothing to read, and throws away what it writes.
fn silence(command: &mut Command)
    ensures program { command_program command.new ≡ command_program command.old }
    ensures args { command_args command.new ≡ command_args command.old }
{
    command
        .stdin(Stdio::null())
        .stdout(Stdio::null())
        .stderr(Stdio::null());
}
