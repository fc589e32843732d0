//! The codes of refusals.

ghost use Rattle.std.specs.Prelude.{◌≡◌};
ghost use Rattle.rqd_core.specs.Replies.{code_of, code_of_refusal};

use farm_lines::Reply;
use farm_types::Refusal;

/// The code of a refusal. Other replies have none.
pub(crate) fn code_of(reply: &Reply) -> Option<u32>
    ensures { result ≡ code_of reply.now }
{
    match reply {
        Reply::BadLine { .. } => Some(1),
        Reply::TooLong => Some(2),
        Reply::BadRange { .. } => Some(7),
        Reply::BadAmount { .. } => Some(8),
        Reply::Refused(why) => Some(code_of_refusal(why)),
        Reply::StillHeld { .. } => Some(13),
        Reply::EntriesFull => Some(18),
        Reply::Store => Some(15),
        Reply::NoMemory => Some(16),
        _ => None,
    }
}

fn code_of_refusal(why: &Refusal) -> u32
    ensures { result ≡ code_of_refusal why.now }
{
    match why {
        Refusal::Unknown { .. } => 3,
        Refusal::Exists { .. } => 4,
        Refusal::WrongBoot { .. } => 5,
        Refusal::Stale { .. } => 6,
        Refusal::FarmFull { .. } => 9,
        Refusal::Finished { .. } => 10,
        Refusal::Satisfied => 11,
        Refusal::WrongState { .. } => 11,
        Refusal::SelfDepend { .. } => 12,
        Refusal::VersionSpent { .. } => 14,
        Refusal::Started { .. } => 17,
        Refusal::Full { .. } => 18,
    }
}
