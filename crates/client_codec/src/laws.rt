//! Laws of the texts of requests and replies. The public functions here do nothing: their contracts are the laws.

ghost use Rattle.std.specs.Prelude.{◌≡◌, ◌==◌, ℕ, false, Some, Ok};
ghost use Rattle.std.specs.List.{list_any};
ghost use Rattle.farm_lines.specs.declared.reply.Reply.{Reply};
ghost use Rattle.farm_lines.specs.declared.request.Request.{Request};
ghost use Rattle.farm_lines.specs.FormedLines.{IsFormedReply, IsFormedRequest};
ghost use Rattle.farm_lines.specs.Reply.{reply_text};
ghost use Rattle.farm_lines.specs.ReplyLines.{reply_of};
ghost use Rattle.farm_lines.specs.Request.{request_of};
ghost use Rattle.farm_lines.specs.RequestText.{request_text};

/// A request within its forms and limits is read from its own text as the same request.
#[tactic(auto, using(crate::proofs::AskedLemmas::AskedBack::request_back))]
pub fn requests_are_read_back()
    ensures { (asked : Request) → IsFormedRequest asked → request_of (request_text asked) ≡ Ok asked }
{}

/// A reply within its forms and limits is read from its own text as the same reply.
#[tactic(auto, using(crate::proofs::RepliedLemmas::RepliesBack::reply_back))]
pub fn replies_are_read_back()
    ensures { (r : Reply) → IsFormedReply r → reply_of (reply_text r) ≡ Some r }
{}

/// No request's text has a newline, byte 10, within, so that each request is one line.
#[tactic(auto, using(object_writer::proofs::Newlines::text_is_one_line))]
pub fn requests_are_single_lines()
    ensures { (asked : Request) → list_any (λ (b : ℕ). b == 10) (request_text asked) ≡ false }
{}
