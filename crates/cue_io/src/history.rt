//! The law of all calls of a reader of lines together.
ghost use Rattle.std.specs.Prelude.{ℕ, List, [], ◌++◌, Option, Result};
ghost use Rattle.cue_io.specs.declared.line.LineFault.{LineFault};
ghost use Rattle.cue_io.specs.Reader.{Held, Given, Moves, new_reader};
ghost use Rattle.cue_io.specs.History.{AreFirstLines, HasGiven, Continues, IsUnfinished};

/// Does nothing: its clauses are the law that the lines given are those of the bytes taken, cut at their newlines, from a
/// reader that was just made, by one more call, after a fault, and where no more is asked for.
pub fn lines_follow_bytes()
    ensures made { (limit : ℕ) (left : Option (List ℕ)) → HasGiven limit [] [] (new_reader limit) left }
    ensures next { (limit : ℕ) (taken : List ℕ) (lines : List (List ℕ)) (old : Held) (left : Option (List ℕ))
        (answer : Result Given LineFault) (new : Held) (left' : Option (List ℕ))
        → HasGiven limit taken lines old left → (moves : Moves left left' old answer new)
        → Continues limit (taken ++ moves.took) lines answer new left' }
    ensures fault { (fault : LineFault) (limit : ℕ) (taken : List ℕ) (lines : List (List ℕ)) (reader : Held) (left : Option (List ℕ))
        → Continues limit taken lines (Err fault) reader left → IsUnfinished taken lines }
    // Half a line counts only where the source is at its end.
    ensures first { (limit : ℕ) (taken : List ℕ) (lines : List (List ℕ)) (reader : Held) (left : Option (List ℕ))
        → HasGiven limit taken lines reader left → AreFirstLines taken lines left }
{}
