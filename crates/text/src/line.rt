//! The lines of a text.

ghost use Rattle.std.specs.Prelude.{◌≡◌};
ghost use Rattle.text.specs.Letters.{letter, layer_name};

/// What a line begins with, by its one letter.
#[derive(Clone, Copy, Debug, PartialEq, Eq)]
pub enum Head {
    /// `S`: the lengths of a sheet.
    Sheet,
    /// `L`: a link.
    Link,
    /// `E`: the end of a sheet.
    End,
    /// `F`: a fault.
    Fault,
}

impl Head {
    /// The letter of the head.
    pub fn letter(self) -> char
        ensures { result ≡ letter self }
    {
        match self {
            Head::Sheet => 'S',
            Head::Link => 'L',
            Head::End => 'E',
            Head::Fault => 'F',
        }
    }
}

/// The layer that finds a fault: the bytes of a line, its fields, the record as a whole, or the sheet.
#[derive(Clone, Copy, Debug, PartialEq, Eq)]
pub enum Layer {
    Line,
    Field,
    Record,
    Sheet,
}

impl Layer {
    /// The layer's name, as a fault line has it.
    pub fn name(self) -> &'static [u8]
        ensures { result.now ≡ layer_name self }
    {
        match self {
            Layer::Line => b"line",
            Layer::Field => b"field",
            Layer::Record => b"record",
            Layer::Sheet => b"sheet",
        }
    }
}

/// One field of a line that is written.
#[derive(Clone, Copy, Debug, PartialEq, Eq)]
pub enum Field {
    Number(u32),
    Name(Layer),
}

/// What a line after the first one says. It is no option: that there is no link would not say that the end was read.
#[derive(Clone, Copy, Debug, PartialEq, Eq)]
pub enum Record {
    Link(u16, u16),
    End,
}
