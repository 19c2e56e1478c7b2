//! What a fault line tells of a fault.

ghost use Rattle.std.specs.Prelude.{◌≡◌};
ghost use Rattle.text.specs.Faults.{fault_layer, fault_number, fault_field};

use crate::fault::{FieldFault, LineFault, RecordFault};
use crate::line::Layer;

impl RecordFault {
    /// The layer that found the fault.
    pub fn layer(self) -> Layer
        ensures { result ≡ fault_layer self }
    {
        match self {
            RecordFault::Line(_) => Layer::Line,
            RecordFault::Field(_) => Layer::Field,
            RecordFault::Head => Layer::Record,
            RecordFault::Sheet(_, _) => Layer::Sheet,
        }
    }

    /// The number of the fault: the sheet's own where the sheet refuses.
    pub fn number(self) -> u8
        ensures { result ≡ fault_number self }
    {
        match self {
            RecordFault::Line(LineFault::ForeignByte) => 13,
            RecordFault::Line(LineFault::Unended) => 14,
            RecordFault::Field(FieldFault::Count) => 15,
            RecordFault::Field(FieldFault::Number(_)) => 16,
            RecordFault::Head => 17,
            RecordFault::Sheet(refusal, _) => refusal.number(),
        }
    }

    /// The field at fault, 0 for the whole line.
    pub fn field(self) -> u8
        ensures { result ≡ fault_field self }
    {
        match self {
            RecordFault::Line(_) | RecordFault::Field(FieldFault::Count) => 0,
            RecordFault::Head => 1,
            RecordFault::Field(FieldFault::Number(field)) | RecordFault::Sheet(_, field) => field,
        }
    }
}
