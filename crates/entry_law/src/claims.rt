//! What the journal says of claims.

ghost use Rattle.entry_law.specs.Billing.{ClaimsAreBilled};

/// A claim's subscription is that of the recorded show and allocation.
pub fn claims_are_billed()
    ensures { ClaimsAreBilled }
{}
