//! The limits, in the order of their numbers.

ghost use Rattle.std.specs.Prelude.{◌≡◌, IfOk, Ok};
ghost use Rattle.std.specs.Vec.{vec_capacity};
ghost use Rattle.farm_types.specs.Farm.{changed_at};
ghost use Rattle.farm_types.specs.Step.{with_most};
ghost use Rattle.limit_book.specs.Book.{check_of, no_limits, number_in, with_plan};

use crate::plan::{LimitPlan, LimitRefusal};
use crate::read::number_of;
use crate::spare::Spare;
use farm_types::{LimitNo, LimitRow, MOST_LIMITS, Text};
use std::alloc::{AllocError, Global};
use std::marker::Model;

/// The limits, each at its number, 255 at most, and how many frames run in each.
#[derive(Debug, Drop)]
pub struct Limits {
    pub(crate) rows: Vec<LimitRow>,
    pub(crate) running: Vec<u32>,
}

impl Model for Limits {
    ghost use Rattle.limit_book.specs.Book as types;

    ghost Value = { types.LimitLists };

    ghost use Rattle.limit_book.specs.Inside.{KeepsBook, lists_of};

    ghost view = { lists_of };

    ghost invariant = { KeepsBook };
}

impl Limits {
    /// No limits. It takes the memory of all.
    pub fn make(alloc: Global) -> Result<Limits, AllocError>
        ensures { IfOk result (λ b. b ≡ no_limits) }
    {
        Ok(Limits {
            rows: Vec::with_capacity(alloc, MOST_LIMITS as usize)?,
            running: Vec::with_capacity(alloc, MOST_LIMITS as usize)?,
        })
    }

    /// Where a limit of that name is set. `Full` comes exactly where the name is new and 255 limits are there.
    pub fn check(&self, name: &str) -> Result<LimitPlan, LimitRefusal>
        ensures { result ≡ check_of self.now.limits name.now }
    {
        if let Some(limit) = number_of(self.rows.as_slice(), name) {
            return Ok(LimitPlan::Known { limit });
        }
        if self.rows.len() >= MOST_LIMITS as usize {
            return Err(LimitRefusal::Full);
        }
        Ok(LimitPlan::New {
            limit: LimitNo(self.rows.len() as u8),
        })
    }

    /// Takes the memory that the limit needs. The book is as before.
    pub fn reserve(&mut self, alloc: Global, name: &str) -> Result<Spare, AllocError>
        ensures book { self.new ≡ self.old }
        ensures reserved { IfOk result (λ reserved. reserved ≡ name.now) }
    {
        Ok(Spare {
            name: Text::from_str(alloc, name)?,
        })
    }

    /// From now on so many frames run at most in the limit of the plan, which `check` gave of that name, and gives its number. What runs stays. It takes
    /// no memory.
    pub fn set(&mut self, reserved: Spare, plan: LimitPlan, most: u32) -> LimitNo
        requires { check_of self.old.limits reserved ≡ Ok plan }
        ensures book { self.new ≡ with_plan self.old reserved plan most }
        ensures number { result ≡ number_in plan }
    {
        match plan {
            LimitPlan::Known { limit } => {
                put_most(&mut self.rows, limit, most);
                limit
            }
            LimitPlan::New { limit } => {
                let Spare { name } = reserved;
                self.rows.push_reserved(LimitRow { name, most });
                self.running.push_reserved(0);
                limit
            }
        }
    }
}

// The limit at a place lets so many frames run.
fn put_most(rows: &mut Vec<LimitRow>, limit: LimitNo, most: u32)
    ensures items { rows.new.items ≡ changed_at rows.old.items limit (with_most most) }
    ensures capacity { vec_capacity rows.new ≡ vec_capacity rows.old }
{
    if let Some(row) = rows.get_mut(usize::from(limit.0)) {
        row.most = most;
    }
}
