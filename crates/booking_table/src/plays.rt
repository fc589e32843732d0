//! The rule of the table, and what each kind of step tells. No value of these types is made.

use atomic_table::{Join, Play, Split, TableRule};
use booking_rule::View;
use std::marker::{Brand, PhantomData};

/// The rule of booking words.
pub struct BookingRule;

impl TableRule<(), View, ()> for BookingRule {
    ghost use Rattle.booking_rule.specs.Kept.{Holds, first_view};

    ghost holds = { λ _. Holds };

    ghost first = { λ _. first_view };
}

/// A seat more, with the next number.
pub struct OneMore;

impl Split<View> for OneMore {
    ghost use Rattle.booking_rule.specs.Splits.{one_more, numbered};

    ghost left = { one_more };

    ghost right = { numbered };
}

/// What a seat has seen, for another.
pub struct Note;

impl Split<View> for Note {
    ghost use Rattle.booking_rule.specs.Splits.{without_receipts, note_of};

    ghost left = { without_receipts };

    ghost right = { note_of };
}

impl Join<View> for Note {
    ghost use Rattle.booking_rule.specs.Splits.{informed, blank};

    ghost both = { informed };

    ghost spent = { blank };
}

/// A look at the journal's word, by which counts what was told.
pub struct See;

impl Play<(), View> for See {
    ghost use Rattle.booking_rule.specs.Splits.{sees};

    ghost then = { sees };
}

/// What a step tells of the seat's view before, the word that it found, and the view after. A call picks it.
pub trait Telling {
    ghost use Rattle.std.specs.Prelude.{ℕ};
    ghost use Rattle.booking_rule.specs.declared.view.View.{View};

    ghost tells: { View → ℕ → View → Type 0 };
}

impl Telling for Brand {
    ghost tells = { λ v found w. Unit {0} };
}

/// A step that tells what the call picked.
pub struct Told<E> {
    of: PhantomData<E>,
}

impl<E: Telling> Play<(), View> for Told<E> {
    ghost use Rattle.booking_table.specs.Steps.{told};

    ghost then = { told E.tells };
}
