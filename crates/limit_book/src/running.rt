//! A frame begins to run in a limit, and ends there.

ghost use Rattle.std.specs.Prelude.{◌≡◌, ◌+◌, ◌-◌, ◌<◌, ◌^◌, length};
ghost use Rattle.std.specs.Vec.{vec_capacity};
ghost use Rattle.farm_types.specs.Farm.{changed_at};
ghost use Rattle.farm_types.specs.Sums.{total_at};
ghost use Rattle.farm_types.specs.declared.limits.TheConstants.{MOST_RUNNING};

use crate::limits::Limits;
use farm_types::LimitNo;

impl Limits {
    /// One frame more runs in the limit. It takes no memory.
    pub fn take(&mut self, limit: LimitNo)
        requires there { limit < length self.old.limits }
        requires within { total_at self.old.running limit < MOST_RUNNING }
        ensures { self.new ≡ record self.old { running = changed_at self.old.running limit (λ n. n + 1) } }
    {
        raise(&mut self.running, limit);
    }

    /// One frame less runs in the limit.
    pub fn give(&mut self, limit: LimitNo)
        requires { 0 < total_at self.old.running limit }
        ensures { self.new ≡ record self.old { running = changed_at self.old.running limit (λ n. n - 1) } }
    {
        lower(&mut self.running, limit);
    }
}

// One more at the place.
fn raise(running: &mut Vec<u32>, limit: LimitNo)
    requires { total_at running.old.items limit < MOST_RUNNING }
    ensures items { running.new.items ≡ changed_at running.old.items limit (λ n. n + 1) }
    ensures capacity { vec_capacity running.new ≡ vec_capacity running.old }
{
    if let Some(count) = running.get_mut(usize::from(limit.0)) {
        *count += 1;
    }
}

// One less at the place.
fn lower(running: &mut Vec<u32>, limit: LimitNo)
    requires { 0 < total_at running.old.items limit }
    ensures items { running.new.items ≡ changed_at running.old.items limit (λ n. n - 1) }
    ensures capacity { vec_capacity running.new ≡ vec_capacity running.old }
{
    if let Some(count) = running.get_mut(usize::from(limit.0)) {
        *count -= 1;
    }
}
