// The faults of a command, as they are told.
use script_text::ScriptRefusal;
use thiserror::Error;
use xq_ast::PyxRefusal;

/// The most bytes of an input.
pub const INPUT_BYTES_MAX: usize = 67_108_864;

/// Why an input is refused.
#[derive(Clone, Copy, Debug, PartialEq, Eq, Error)]
pub enum InputRefusal {
    /// The line of a document has a byte that begins or continues no character.
    #[error("NotUtf8")]
    NotUtf8,
    #[error("{}", .0.name())]
    Pyx(PyxRefusal),
    /// A refusal of a script, with its own `NotUtf8`.
    #[error("{:?}", .0)]
    Script(ScriptRefusal),
}

/// The first line of an input that is refused, from 1, and why.
#[derive(Clone, Copy, Debug, PartialEq, Eq)]
pub struct InputFault {
    pub line: u64,
    pub why: InputRefusal,
}

/// Why the tool did not do its work.
#[derive(Clone, Copy, Debug, PartialEq, Eq, Error)]
pub enum TopFault {
    /// The words are no command.
    #[error("BadWords")]
    BadWords,
    /// The input is refused at this line, from 1.
    #[error("BadInput {line} {why}")]
    BadInput { line: u64, why: InputRefusal },
    /// The input has more than 67,108,864 bytes.
    #[error("TooLarge")]
    TooLarge,
    /// The source failed.
    #[error("ReadFault")]
    ReadFault,
    /// The sink failed. A prefix of what was to be written may be written.
    #[error("WriteFault")]
    WriteFault,
    /// There was no memory.
    #[error("NoMemory")]
    NoMemory,
}
