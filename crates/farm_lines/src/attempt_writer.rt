//! Attempts in lists, as they are written.

ghost use Rattle.std.specs.Prelude.{◌≡◌, ◌∷◌, OnOk, true};
ghost use Rattle.json.specs.Token.{key};
ghost use Rattle.farm_lines.specs.Reply.{attempt_data, attempts_data};
ghost use Rattle.object_writer.specs.Tokens.{added, tokens_of};
ghost use Rattle.object_writer.specs.Written.{is_plain};

use farm_types::Attempt;
use object_writer::ObjectWriter;
use std::alloc::AllocError;

/// The member of that name, a list of attempts: each with its slot and its version.
pub fn write_attempts(
    out: &mut ObjectWriter,
    name: &str,
    attempts: &[Attempt],
) -> Result<(), AllocError>
    requires { is_plain name.now ≡ true }
    ensures { OnOk result (out.new ≡ added out.old (key name.now ∷ tokens_of (attempts_data attempts.now))) }
{
    out.begin_list(name)?;
    for attempt in attempts {
        write_attempt(out, *attempt)?;
    }
    out.end_list()
}

#[tactic(auto, unfolding(crate::specs::Reply::attempt_data))]
fn write_attempt(out: &mut ObjectWriter, attempt: Attempt) -> Result<(), AllocError>
    ensures { OnOk result (out.new ≡ added out.old (tokens_of (attempt_data attempt))) }
{
    out.begin_object()?;
    out.slot("slot", attempt.slot)?;
    out.version("version", attempt.version)?;
    out.end_object()
}
