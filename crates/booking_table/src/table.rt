//! The table of all words, and its seats.

ghost use Rattle.std.specs.Prelude.{◌≡◌, ℕ, ◌+◌, ◌-◌, ◌%◌, ◌^◌, ◌<◌, ◌==◌, IfOk, vec_len, slice_index};
ghost use prog.Atomic.{either};
ghost use mathlib.Core.List.{IsPrefix};
ghost use Rattle.booking_rule.specs.Kept.{first_view};
ghost use Rattle.booking_rule.specs.Splits.{MaySplit, IsNote, Settles, one_more, numbered, without_receipts, note_of, informed, settled};
ghost use Rattle.booking_rule.specs.Words.{all_words};
ghost use Rattle.booking_table.specs.Seats.{view, IsSeatOf, IsSameSeat};
ghost use Rattle.booking_table.specs.Steps.{MayStep, tells_of};

use crate::doing::Doing;
use crate::plays::{BookingRule, Note, OneMore, See, Telling, Told};
use atomic_table::{Shared, Table as Words};
use booking_rule::View;
use depend_law::legal_runs_keep_farms;
use std::alloc::{AllocError, Global};
use std::marker::{Brand, Model};

/// A token of no bytes with which its holder steps on the table. What it knows is a view, which only its own steps change.
pub type Seat = atomic_table::Seat<(), View>;

/// The words that all dispatchers share: the journal's, two for each slot, and one for each host, subscription and limit.
#[derive(Drop)]
pub struct Table {
    words: Words<(), View, (), BookingRule, Global>,
}

/// Contracts see which table it is.
impl Model for Table {
    ghost use Rattle.std.specs.Prelude.{◌≡◌};
    ghost use Rattle.atomic_table.specs.Seated.{TableId, table_id_coded};
    ghost use Rattle.booking_rule.specs.Words.{all_words};

    ghost Value = { TableId };

    ghost coded = { table_id_coded };

    ghost view = { λ t. t.words.shared.table_id };

    ghost invariant = { λ t. (t.words.shared.table_id.words ≡ all_words) × (t.words.shared.table_id.slots ≡ 0) };
}

// 1 for the journal, 65,536 for frames and as many for their amounts, 4,096 hosts, 1,024 subscriptions, 255 limits
const WORDS: usize = 136_448;

// All numbers are 0. It says so without a list of that length, which no proof should compute.
fn zeros(alloc: Global, count: usize) -> Result<Vec<u64>, AllocError>
    ensures { IfOk result (λ v. (vec_len v ≡ count) × ((k : ℕ) → slice_index v.items k ≡ 0)) }
{
    vec![in alloc; 0u64; count]
}

impl Table {
    /// A table whose words are all 0, and the recorder's seat, which knows an empty journal of the empty farm.
    pub fn make(alloc: Global) -> Result<(Table, Seat), AllocError>
        ensures made { IfOk result (λ r. IsSeatOf r.0 r.1 × (view r.1 ≡ first_view)) }
    {
        legal_runs_keep_farms();
        let zeros = zeros(alloc, WORDS)?;
        let (words, seat) = Words::of_words(alloc, zeros.as_slice(), &())?;
        Ok((Table { words }, seat))
    }

    /// The words, for a crate that takes steps of other kinds on them.
    pub fn words(&self) -> &Shared<(), View, (), BookingRule>
        ensures table { result.now.table_id ≡ self.now }
        ensures size { (self.now.words ≡ all_words) × (self.now.slots ≡ 0) }
    {
        &self.words.shared
    }

    /// A seat more, with the next number. It holds nothing, and has seen what the recorder's has.
    pub fn split(&self, seat: &mut Seat) -> Seat
        requires table { IsSeatOf self.now seat.old }
        requires first { MaySplit (view seat.old) }
        ensures same { IsSameSeat seat.old seat.new }
        ensures kept { view seat.new ≡ one_more (view seat.old) }
        ensures made { IsSeatOf self.now result × (view result ≡ numbered (view seat.old)) }
    {
        self.words.shared.split_seat::<OneMore>(seat)
    }

    /// What a seat has seen, for another to take in. That of the recorder's seat has its receipts.
    pub fn note(&self, seat: &mut Seat) -> Seat
        requires table { IsSeatOf self.now seat.old }
        ensures same { IsSameSeat seat.old seat.new }
        ensures kept { view seat.new ≡ without_receipts (view seat.old) }
        ensures made { IsSeatOf self.now result × (view result ≡ note_of (view seat.old)) }
    {
        self.words.shared.split_seat::<Note>(seat)
    }

    /// Takes a note in, and looks at the journal's word.
    pub fn learn(&self, seat: &mut Seat, note: Seat)
        requires table { IsSeatOf self.now seat.old }
        requires note { IsSeatOf self.now note × IsNote (view note) }
        ensures same { IsSameSeat seat.old seat.new }
        ensures learned { (found : ℕ) × (view seat.new ≡ settled (informed (view seat.old) (view note)) found) }
        ensures settles { Settles (informed (view seat.old) (view note)) (view seat.new) }
    {
        self.words.shared.join_seat::<Note>(seat, note);
        self.words.shared.load::<See>(seat, 0);
    }

    /// One seat learns what another has seen: of the journal, and what the recorder's seat did.
    pub fn meet(&self, from: &mut Seat, into: &mut Seat)
        requires table { IsSeatOf self.now from.old × IsSeatOf self.now into.old }
        ensures same { IsSameSeat from.old from.new × IsSameSeat into.old into.new }
        ensures kept { view from.new ≡ without_receipts (view from.old) }
        ensures learned { (found : ℕ) × (view into.new ≡ settled (informed (view into.old) (note_of (view from.old))) found) }
        ensures grows { IsPrefix (view from.old).journal (view into.new).journal × IsPrefix (view into.old).journal (view into.new).journal }
    {
        let note = self.note(from);
        self.learn(into, note);
    }

    // A load of a word. It tells what such a step tells.
    pub(crate) fn load(&self, seat: &mut Seat, word: usize, doing: Doing) -> u64
        requires table { IsSeatOf self.now seat.old }
        requires may { (word < all_words) × MayStep (tells_of doing) (view seat.old) seat.old.id word (λ n. n) }
        ensures same { IsSameSeat seat.old seat.new }
        ensures tells { tells_of doing (view seat.old) result (view seat.new) }
    {
        self.load_as::<Brand>(seat, word, doing)
    }

    fn load_as<E: Telling>(&self, seat: &mut Seat, word: usize, doing: Doing) -> u64
        requires table { IsSeatOf self.now seat.old }
        requires may { (word < all_words) × MayStep E.tells (view seat.old) seat.old.id word (λ n. n) }
        ensures same { IsSameSeat seat.old seat.new }
        ensures tells { E.tells (view seat.old) result (view seat.new) }
    {
        let _ = doing;
        self.words.shared.load::<Told<E>>(seat, word)
    }

    // A sum with a word. It tells what such a step tells.
    pub(crate) fn add(&self, seat: &mut Seat, word: usize, amount: u64, doing: Doing) -> u64
        requires table { IsSeatOf self.now seat.old }
        requires may { (word < all_words) × MayStep (tells_of doing) (view seat.old) seat.old.id word (λ n. (n + amount) % 2 ^ 64) }
        ensures same { IsSameSeat seat.old seat.new }
        ensures tells { tells_of doing (view seat.old) result (view seat.new) }
    {
        self.add_as::<Brand>(seat, word, amount, doing)
    }

    fn add_as<E: Telling>(&self, seat: &mut Seat, word: usize, amount: u64, doing: Doing) -> u64
        requires table { IsSeatOf self.now seat.old }
        requires may { (word < all_words) × MayStep E.tells (view seat.old) seat.old.id word (λ n. (n + amount) % 2 ^ 64) }
        ensures same { IsSameSeat seat.old seat.new }
        ensures tells { E.tells (view seat.old) result (view seat.new) }
    {
        let _ = doing;
        self.words.shared.fetch_add::<Told<E>>(seat, word, amount)
    }

    // A difference with a word. It tells what such a step tells.
    pub(crate) fn take_off(&self, seat: &mut Seat, word: usize, amount: u64, doing: Doing) -> u64
        requires table { IsSeatOf self.now seat.old }
        requires may { (word < all_words) × MayStep (tells_of doing) (view seat.old) seat.old.id word (λ n. (n + (2 ^ 64 - amount)) % 2 ^ 64) }
        ensures same { IsSameSeat seat.old seat.new }
        ensures tells { tells_of doing (view seat.old) result (view seat.new) }
    {
        self.take_off_as::<Brand>(seat, word, amount, doing)
    }

    fn take_off_as<E: Telling>(
        &self,
        seat: &mut Seat,
        word: usize,
        amount: u64,
        doing: Doing,
    ) -> u64
        requires table { IsSeatOf self.now seat.old }
        requires may { (word < all_words) × MayStep E.tells (view seat.old) seat.old.id word (λ n. (n + (2 ^ 64 - amount)) % 2 ^ 64) }
        ensures same { IsSameSeat seat.old seat.new }
        ensures tells { E.tells (view seat.old) result (view seat.new) }
    {
        let _ = doing;
        self.words.shared.fetch_sub::<Told<E>>(seat, word, amount)
    }

    // An exchange of a word, where it is the old one. It tells what such a step tells.
    pub(crate) fn exchange(
        &self,
        seat: &mut Seat,
        word: usize,
        old: u64,
        new: u64,
        doing: Doing,
    ) -> u64
        requires table { IsSeatOf self.now seat.old }
        requires may { (word < all_words) × MayStep (tells_of doing) (view seat.old) seat.old.id word (λ n. either (n == old) new n) }
        ensures same { IsSameSeat seat.old seat.new }
        ensures tells { tells_of doing (view seat.old) result (view seat.new) }
    {
        self.exchange_as::<Brand>(seat, word, old, new, doing)
    }

    fn exchange_as<E: Telling>(
        &self,
        seat: &mut Seat,
        word: usize,
        old: u64,
        new: u64,
        doing: Doing,
    ) -> u64
        requires table { IsSeatOf self.now seat.old }
        requires may { (word < all_words) × MayStep E.tells (view seat.old) seat.old.id word (λ n. either (n == old) new n) }
        ensures same { IsSameSeat seat.old seat.new }
        ensures tells { E.tells (view seat.old) result (view seat.new) }
    {
        let _ = doing;
        self.words
            .shared
            .compare_exchange::<Told<E>>(seat, word, old, new)
    }
}
