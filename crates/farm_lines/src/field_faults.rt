//! The faults of fields, as the faults of a line.

ghost use Rattle.std.specs.Prelude.{◌≡◌};

use crate::request::RequestFault;
use cue_json::{FieldFault, FieldName};
use farm_types::Text;

impl From<FieldFault> for RequestFault {
    ghost use Rattle.std.specs.Prelude.{◌≡◌};
    ghost use Rattle.farm_lines.specs.FieldFaults.{of_field};

    ghost from_gives = { λ fault e. e ≡ of_field fault };

    fn from(fault: FieldFault) -> RequestFault {
        match fault {
            FieldFault::Missing { field } => bad_line(field),
            FieldFault::WrongKind { field } => bad_line(field),
            FieldFault::Unknown { field } => bad_line(field),
            FieldFault::NoMemory => RequestFault::NoMemory,
        }
    }
}

// That the field of that name is at fault. The name is moved.
fn bad_line(field: FieldName) -> RequestFault
    ensures { result ≡ RequestFault.BadLine field }
{
    RequestFault::BadLine {
        field: Text::from_string(field.into_string()),
    }
}
