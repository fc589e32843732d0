//! What an entry does to slots.

ghost use Rattle.std.specs.Prelude.{◌≡◌, ◌<◌, ◌≤◌, ◌==◌, ◌⊎◌, ℕ, false};
ghost use Rattle.booking_rule.specs.Link.{stand_at};
ghost use Rattle.farm_rows.specs.Changes.{row_at};
ghost use Rattle.farm_rows.specs.declared.row_key.RowKey.TheVariants.{Frame};
ghost use Rattle.farm_types.specs.declared.entry.Act.TheVariants.{Book};
ghost use Rattle.farm_types.specs.declared.entry.Entry.{Entry};
ghost use Rattle.farm_types.specs.Farm.{Farm};
ghost use Rattle.farm_types.specs.Kept.{IsKeptFarm};
ghost use Rattle.farm_types.specs.Run.{IsLegalStep};
ghost use Rattle.farm_types.specs.Step.{after};
ghost use Rattle.entry_law.specs.Alone.{BooksAlone};
ghost use Rattle.entry_law.specs.Used.{UsesAreShown};

/// No slot's version falls.
pub fn versions_rise()
    ensures { (f : Farm) (e : Entry) (n : ℕ) → IsKeptFarm f → IsLegalStep f e → (stand_at f n).version ≤ (stand_at (after f e) n).version }
{}

/// A slot whose frame waits below the last version is as it was, or its version rose.
pub fn waiting_rises()
    ensures { (f : Farm) (e : Entry) (n : ℕ) → IsKeptFarm f → IsLegalStep f e → (stand_at f n).phase ≡ 1 → (stand_at f n).version < 16777215
        → (stand_at (after f e) n ≡ stand_at f n) ⊎ ((stand_at f n).version < (stand_at (after f e) n).version) }
{}

/// A slot that has a frame before and after the entry has the same amounts: cores, show, limit and memory.
pub fn frames_keep_amounts()
    ensures { (f : Farm) (e : Entry) (n : ℕ) → IsKeptFarm f → IsLegalStep f e
        → ((stand_at f n).phase == 0) ≡ false → ((stand_at (after f e) n).phase == 0) ≡ false
        → ((stand_at (after f e) n).cores ≡ (stand_at f n).cores) × ((stand_at (after f e) n).show ≡ (stand_at f n).show)
        × ((stand_at (after f e) n).limit ≡ (stand_at f n).limit) × ((stand_at (after f e) n).memory ≡ (stand_at f n).memory) }
{}

/// A slot whose frame runs is as it was, or the entry books it.
pub fn only_books_run()
    ensures { (f : Farm) (e : Entry) (n : ℕ) → IsKeptFarm f → IsLegalStep f e → (stand_at (after f e) n).phase ≡ 4
        → (stand_at (after f e) n ≡ stand_at f n) ⊎ ((host : ℕ) × (e.act ≡ Book n host)) }
{}

/// A slot whose row stays is as it was.
pub fn stands_stay()
    ensures { (f : Farm) (e : Entry) (n : ℕ) → IsKeptFarm f → IsLegalStep f e → row_at (after f e) (Frame n) ≡ row_at f (Frame n)
        → stand_at (after f e) n ≡ stand_at f n }
{}

/// A booking changes its slot alone.
pub fn books_alone()
    ensures { (f : Farm) (e : Entry) (slot host : ℕ) → IsLegalStep f e → e.act ≡ Book slot host → BooksAlone f (after f e) slot host }
{}

/// What live attempts use of hosts, subscriptions and limits is what running frames use, as words show them.
pub fn used_is_running()
    ensures { (f : Farm) → IsKeptFarm f → UsesAreShown f }
{}
