//! Laws of the bytes of rows. The public functions here do nothing: their contracts are the laws.

ghost use Rattle.std.specs.Prelude.{◌≡◌, ℕ, List, Some};
ghost use Rattle.farm_rows.specs.declared.farm_row.FarmRow.{FarmRow};
ghost use Rattle.farm_rows.specs.Rows.{row_id, row_kind};
ghost use Rattle.row_codec.specs.RowFields.{text_in};
ghost use Rattle.row_codec.specs.RowLaws.{FitsIn, IsSpelled};
ghost use Rattle.row_codec.specs.RowReading.{row_from};

/// Each row is read back from its bytes, in each format that has it.
#[tactic(auto, using(crate::proofs::ReadBack::read_back))]
pub fn rows_are_read_back()
    ensures { (format : ℕ) (r : FarmRow) → FitsIn format r → row_from format (row_kind r) (row_id r) (text_in format r) ≡ Some r }
{}

/// A row that is read is of that kind and id, and has those bytes.
#[tactic(auto, using(crate::proofs::Spellings::read_is_spelled))]
pub fn rows_are_read_as_spelled()
    ensures { (format kind id : ℕ) (bytes : List ℕ) (r : FarmRow) → row_from format kind id bytes ≡ Some r → IsSpelled format kind id bytes r }
{}

/// Two rows of one kind and id don't have the same bytes.
#[tactic(auto, using(crate::proofs::ReadBack::spelled_once))]
pub fn spellings_differ()
    ensures { (format : ℕ) (r s : FarmRow) → FitsIn format r → FitsIn format s → row_kind r ≡ row_kind s → row_id r ≡ row_id s
        → text_in format r ≡ text_in format s → r ≡ s }
{}
