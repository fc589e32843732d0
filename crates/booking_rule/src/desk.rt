//! What the recorder's seat alone knows. No value of this type is made.

use farm_types::{Entry, HostNo, LimitNo, Slot, SubNo};
use std::collections::LinkedList;

/// What the recorder's seat alone knows: how many numbered seats it has split off; the entries before the last one, none while
/// the words are placed for the first time; the slots, hosts, subscriptions and limits whose words were changed since; and
/// the slot whose word runs ahead of its booking's commit, with the host that this word names.
pub struct Desk {
    pub split: u64,
    pub before: Option<LinkedList<Entry>>,
    pub slots: LinkedList<Slot>,
    pub hosts: LinkedList<HostNo>,
    pub subs: LinkedList<SubNo>,
    pub limits: LinkedList<LimitNo>,
    pub pending: Option<Slot>,
    pub on: HostNo,
}
