//! What a seat knows. No value of this type is made.

use crate::desk::Desk;
use crate::hold::{Claim, Room, Take};
use crate::noted::Noted;
use crate::opening::Opening;
use farm_types::{Entry, LimitNo};
use std::collections::LinkedList;

/// What a seat knows: the recorder's seat has a desk, the numbered ones a number, a note neither. The journal and the desk's
/// trail are what the seat has seen of the recorder's; what it was told counts once it looks at the journal's word.
pub struct View {
    pub desk: Option<Desk>,
    pub number: Option<u64>,
    pub opening: Opening,
    pub journal: LinkedList<Entry>,
    pub told: LinkedList<Entry>,
    pub takes: LinkedList<Take>,
    pub limits: LinkedList<LimitNo>,
    pub rooms: LinkedList<Room>,
    pub claims: LinkedList<Claim>,
    pub ungranted: Option<Take>,
    pub ungranted_limit: Option<LimitNo>,
    pub trail: LinkedList<Noted>,
    pub desk_trail: LinkedList<Noted>,
    pub told_trail: LinkedList<Noted>,
    pub receipts: LinkedList<u64>,
}
