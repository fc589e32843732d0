//! Laws of recovery over rows of bytes. The public functions here do nothing: their contracts are the laws.

ghost use Rattle.std.specs.Prelude.{◌≡◌, [], ℕ, List, Ok};
ghost use Rattle.std.specs.List.{AllByRecursion};
ghost use Rattle.farm_keeper.specs.declared.row.Row.{Row};
ghost use Rattle.farm_types.specs.declared.entry.Entry.{Entry};
ghost use Rattle.farm_types.specs.Farm.{Farm, empty_farm};
ghost use Rattle.farm_types.specs.Kept.{IsKeptFarm};
ghost use Rattle.farm_rows.specs.declared.head_row.TheConstants.{ROW_FORMAT};
ghost use Rattle.farm_types.specs.Run.{IsLegal, run_of};
ghost use Rattle.farm_rows.specs.Recovery.{Said};
ghost use Rattle.farm_rows.specs.Rows.{HasRowsIn, rows_in};
ghost use Rattle.row_codec.specs.RowLaws.{FitsIn};
ghost use Rattle.recovery.specs.Recovered.{recovered, spelled_rows};

/// Rows of bytes that are a farm are that farm's rows as they are spelled in their format, which it has, and it keeps what every farm keeps.
pub fn rows_recovered_are_the_farms()
    ensures rows { (rows : List Row) (said : Said) → recovered rows ≡ Ok said → spelled_rows said.format said.farm ≡ rows }
    ensures format { (rows : List Row) (said : Said) → recovered rows ≡ Ok said → HasRowsIn said.format said.farm }
    ensures kept { (rows : List Row) (said : Said) → recovered rows ≡ Ok said → IsKeptFarm said.farm }
{
    recovery_law::farms_said_are_kept();
    row_codec::rows_are_read_as_spelled();
}

/// Of each farm that keeps what every farm keeps, the rows as they are spelled in a format that it has are that farm, where the types can hold them.
pub fn farms_are_recovered()
    ensures { (format : ℕ) (f : Farm) → IsKeptFarm f → HasRowsIn format f → AllByRecursion (FitsIn format) (rows_in format f)
        → recovered (spelled_rows format f) ≡ Ok (record { farm = f; format = format }) }
{
    recovery_law::rows_say_their_farm();
    row_codec::rows_are_read_back();
}

/// Each farm of a legal run is what its rows, as they are spelled in a format that it has, are: of a run from the empty farm, and of one from a farm
/// that rows are.
pub fn farms_of_runs_are_recovered()
    ensures empty { (format : ℕ) (es : List Entry) → IsLegal empty_farm es → HasRowsIn format (run_of empty_farm es)
        → recovered (spelled_rows format (run_of empty_farm es)) ≡ Ok (record { farm = run_of empty_farm es; format = format }) }
    ensures later { (rows : List Row) (said : Said) (format : ℕ) (es : List Entry) → recovered rows ≡ Ok said → IsLegal said.farm es
        → HasRowsIn format (run_of said.farm es)
        → recovered (spelled_rows format (run_of said.farm es)) ≡ Ok (record { farm = run_of said.farm es; format = format }) }
{
    depend_law::legal_runs_keep_farms();
    store_law::rows_fit();
    farms_are_recovered();
    rows_recovered_are_the_farms();
}

/// No rows at all are the farm that no entry has made yet, in the format in which rows are written.
pub fn no_rows_are_the_empty_farm()
    ensures { recovered [] ≡ Ok (record { farm = empty_farm; format = ROW_FORMAT }) }
{}
