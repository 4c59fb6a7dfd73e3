// Why the work stopped.
use std::alloc::AllocError;
use value_lines::WriteRefusal;

/// What is refused, with a line and a status of its own.
#[derive(Debug, Drop)]
pub enum Refusal {
    /// Words that ask for nothing.
    Usage,
    /// A grammar. The text tells why.
    Grammar { text: Vec<u8> },
    /// An input. The text tells why.
    Input { text: Vec<u8> },
}

/// Why the work stopped before its end.
#[derive(Debug, Drop)]
pub enum Stop<'a> {
    /// Words, a grammar or an input are refused.
    Refused(Refusal),
    /// The file with the name was not opened.
    OpenFault(&'a str),
    /// A file or the standard input was not read.
    ReadFault,
    /// The standard output was not written.
    WriteFault,
    /// Memory ran out.
    NoMemory,
}

impl<'a> From<AllocError> for Stop<'a> {
    ghost use Rattle.std.specs.Prelude.{◌≡◌};
    ghost use Rattle.tellings.specs.declared.stop.Stop.TheVariants.{NoMemory};

    ghost from_gives = { λ _ stop. stop ≡ NoMemory };

    fn from(_error: AllocError) -> Stop<'a> {
        Stop::NoMemory
    }
}

impl<'a> From<text_reading::Refusal> for Stop<'a> {
    ghost use Rattle.std.specs.Prelude.{◌≡◌};
    ghost use Rattle.tellings.specs.Refusals.{stop_for};

    ghost from_gives = { λ refusal stop. stop ≡ stop_for refusal };

    fn from(refusal: text_reading::Refusal) -> Stop<'a> {
        match refusal {
            text_reading::Refusal::Grammar { text, .. } => Stop::Refused(Refusal::Grammar { text }),
            text_reading::Refusal::Input { text, .. } => Stop::Refused(Refusal::Input { text }),
            text_reading::Refusal::NoMemory => Stop::NoMemory,
        }
    }
}

impl<'a> From<WriteRefusal> for Stop<'a> {
    ghost use Rattle.std.specs.Prelude.{◌≡◌};
    ghost use Rattle.tellings.specs.Refusals.{write_stop};

    ghost from_gives = { λ refusal stop. stop ≡ write_stop refusal };

    fn from(refusal: WriteRefusal) -> Stop<'a> {
        match refusal {
            WriteRefusal::WriteFault => Stop::WriteFault,
            WriteRefusal::NoMemory => Stop::NoMemory,
        }
    }
}
