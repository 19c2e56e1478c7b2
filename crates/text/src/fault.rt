//! What can be at fault in a text, layer by layer.

ghost use Rattle.std.specs.Prelude.{◌≡◌};
ghost use Rattle.text.specs.declared.fault.RecordFault.TheVariants.{Line, Field, Sheet};
ghost use Rattle.text.specs.Refused.{refused_field};

use sheet::refusal::Refusal;

/// A fault in the bytes of a line.
#[derive(Clone, Copy, Debug, PartialEq, Eq)]
pub enum LineFault {
    /// The text ends before the line does.
    Unended,
    /// A byte that no line may hold.
    ForeignByte,
}

/// A fault in the fields of a line.
#[derive(Clone, Copy, Debug, PartialEq, Eq)]
pub enum FieldFault {
    /// Too many fields, or too few.
    Count,
    /// A field that should be a number and is none, by its place in the line.
    Number(u8),
}

/// A fault of one line: its bytes, its fields, its head, or what the sheet refuses.
#[derive(Clone, Copy, Debug, PartialEq, Eq)]
pub enum RecordFault {
    Line(LineFault),
    Field(FieldFault),
    /// A head out of its place.
    Head,
    /// The sheet's own refusal, whole, and the field that it is about (0, as the fault line prints it: the whole line).
    Sheet(Refusal, u8),
}

/// A fault of a text: the fault of one of its lines, and that line's number.
#[derive(Clone, Copy, Debug, PartialEq, Eq)]
pub struct Fault {
    pub line: u32,
    pub cause: RecordFault,
}

impl From<LineFault> for RecordFault {
    ghost from_gives = { λ e r. r ≡ Line e };

    fn from(fault: LineFault) -> RecordFault {
        RecordFault::Line(fault)
    }
}

impl From<FieldFault> for RecordFault {
    ghost from_gives = { λ e r. r ≡ Field e };

    fn from(fault: FieldFault) -> RecordFault {
        RecordFault::Field(fault)
    }
}

/// The words of a link are fields 2 and 3 of its line; any other refusal is about the whole line.
impl From<Refusal> for RecordFault {
    ghost from_gives = { λ e r. r ≡ Sheet e (refused_field e) };

    fn from(refusal: Refusal) -> RecordFault {
        let field = match refusal {
            Refusal::LeftOutside => 2,
            Refusal::RightOutside => 3,
            _ => 0,
        };
        RecordFault::Sheet(refusal, field)
    }
}

/// A line's fault becomes the text's with the number of the line.
impl From<(u32, RecordFault)> for Fault {
    ghost from_gives = { λ e r. r ≡ record { line = e.0; cause = e.1 } };

    fn from((line, cause): (u32, RecordFault)) -> Fault {
        Fault { line, cause }
    }
}

mod tells;
