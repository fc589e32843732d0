//! Why an object is no job spec.

ghost use Rattle.std.specs.Prelude.{◌≡◌};
ghost use Rattle.job_spec.specs.SpecResults.{IsAmount};

use cue_json::FieldFault;
use farm_lines::RequestFault;
use farm_types::Text;
use frame_range::RangeFault;
use std::alloc::{AllocError, Global};
use std::fmt;

/// Why an object is no job spec: its first fault. That memory ran out is `NoMemory`, and never stands inside another fault.
#[derive(Debug, Drop)]
pub enum SpecFault {
    /// A field is missing, of another kind or form, or not expected.
    Field { fault: FieldFault },
    /// The range of the layer of that name has a fault.
    Range { layer: Text, fault: RangeFault },
    /// The amount, or the length, of that field is outside its limits.
    Amount { field: Text },
    /// Memory ran out.
    NoMemory,
}

impl SpecFault {
    /// That the amount of the field is outside its limits.
    pub(crate) fn amount(alloc: Global, field: &str) -> SpecFault
        ensures { IsAmount field.now result }
    {
        match Text::from_str(alloc, field) {
            Ok(field) => SpecFault::Amount { field },
            Err(_) => SpecFault::NoMemory,
        }
    }
}

impl fmt::Display for SpecFault {
    fn fmt<W: fmt::Write>(&self, f: &mut fmt::Formatter<W>) -> fmt::Result {
        match self {
            SpecFault::Field { fault } => write!(f, "{fault}"),
            SpecFault::Range { layer, fault } => {
                write!(f, "malformed range of layer `{}`: {fault}", layer.as_str())
            }
            SpecFault::Amount { field } => {
                write!(f, "field `{}` is outside its limits", field.as_str())
            }
            SpecFault::NoMemory => write!(f, "out of memory"),
        }
    }
}

impl From<FieldFault> for SpecFault {
    ghost use Rattle.std.specs.Prelude.{◌≡◌};
    ghost use Rattle.job_spec.specs.SpecResults.{with_field};

    ghost from_gives = { λ fault e. e ≡ with_field fault };

    fn from(fault: FieldFault) -> SpecFault {
        match fault {
            FieldFault::NoMemory => SpecFault::NoMemory,
            fault => SpecFault::Field { fault },
        }
    }
}

impl From<SpecFault> for RequestFault {
    ghost use Rattle.std.specs.Prelude.{◌≡◌};
    ghost use Rattle.job_spec.specs.SpecResults.{of_spec};

    ghost from_gives = { λ fault e. e ≡ of_spec fault };

    fn from(fault: SpecFault) -> RequestFault {
        match fault {
            SpecFault::Field { fault } => RequestFault::from(fault),
            SpecFault::Range { layer, fault } => RequestFault::BadRange { layer, fault },
            SpecFault::Amount { field } => RequestFault::BadAmount { field },
            SpecFault::NoMemory => RequestFault::NoMemory,
        }
    }
}

impl From<AllocError> for SpecFault {
    ghost use Rattle.std.specs.Prelude.{◌≡◌};
    ghost use Rattle.job_spec.specs.declared.fault.SpecFault.TheVariants.{NoMemory};

    ghost from_gives = { λ _ e. e ≡ NoMemory };

    fn from(_e: AllocError) -> SpecFault {
        SpecFault::NoMemory
    }
}
