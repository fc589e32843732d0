//! Laws of lines. The public functions here do nothing: their contracts are the laws.

ghost use Rattle.std.specs.Prelude.{◌<◌, ◌^◌, ℕ, List};
ghost use Rattle.std.specs.List.{All};
ghost use Rattle.farm_lines.specs.declared.report.Report.{Report};
ghost use Rattle.farm_types.specs.Farm.{Farm};
ghost use Rattle.farm_types.specs.Run.{IsLegal};
ghost use Rattle.farm_lines.specs.Asked.{heard_entry};
ghost use Rattle.farm_lines.specs.Transcript.{Mark, Exchange, entries_in};
ghost use Rattle.farm_types.specs.Formed.{IsFormed};
ghost use Rattle.line_answers.specs.LineAnswers.{reported};
ghost use Rattle.line_answers.specs.Outcomes.{WalksWhole, IsAccepted, HasWholeRound, IsAnsweredFully};

/// Whatever lines come, at whatever moments of 64 bits, and wherever memory runs out or the store fails, the entries that are recorded are a legal run.
#[tactic(auto, using(crate::proofs::LegalLemmas::exchanges_legal))]
pub fn sessions_are_legal()
    ensures { (f : Farm) (exchanges : List Exchange) → All (λ t. t.moment < 2 ^ 64) exchanges → IsLegal f (entries_in f exchanges) }
{}

/// Whatever a formed report tells, at whatever moment, and wherever memory runs out or the store fails, the entries that are recorded for it are a legal run.
#[tactic(auto, using(crate::proofs::LegalLemmas::reported_legal))]
pub fn reports_are_legal()
    ensures { (f : Farm) (report : Report) (moment : ℕ) (mark : Mark) → IsFormed (heard_entry report moment)
        → IsLegal f (reported f report moment mark).entries }
{}

/// A report that the farm takes is recorded with exactly its round of bookings, unless memory ran out or the store failed before it was recorded or
/// within the round.
#[tactic(auto, using(crate::proofs::OutcomeLemmas::whole_round))]
pub fn taken_reports_have_their_round()
    ensures { (f : Farm) (line : List ℕ) (moment : ℕ) (mark : Mark) (report : Report) → WalksWhole mark → IsAccepted f line moment report
        → HasWholeRound f line moment mark report }
{}

/// A line past the limit is told so, and each other is answered by what it asks, unless memory ran out or the store failed for it. Where memory ran
/// out for a report's reply alone, the same is recorded.
#[tactic(auto, using(crate::proofs::OutcomeLemmas::answered_fully))]
pub fn lines_are_answered_by_what_they_ask()
    ensures { (f : Farm) (line : List ℕ) (moment : ℕ) → IsAnsweredFully f line moment }
{}
