//! Refusals of PYX lines.
ghost use Rattle.std.specs.Prelude.{◌≡◌};
ghost use Rattle.xq_ast.specs.CodeText.{refusal_name};

/// Why a PYX line, or the end of the lines, is refused. The tests are made in this order.
#[derive(Clone, Copy, Debug, PartialEq, Eq)]
pub enum PyxRefusal {
    /// The line is empty, or its first character begins no kind of line.
    BadLine,
    /// The name is empty, longer than 255 bytes, or has a character that no name has there.
    BadName,
    /// The end tag has another name than the innermost open element, or nothing is open.
    EndMismatch,
    /// The attribute stands neither behind a start tag nor behind another attribute.
    AttributeLate,
    /// The element has an attribute of this name already.
    AttributeTwice,
    /// 512 elements are open already.
    TooDeep,
    /// The document has 4,194,304 nodes already.
    TooManyNodes,
    /// The document's values have more than 268,435,456 bytes.
    TooMuchText,
    /// An element is open at the end.
    Unclosed,
}

impl PyxRefusal {
    /// The name of the refusal, as a journal prints it.
    pub fn name(self) -> &'static str
        ensures { result.now ≡ refusal_name self }
    {
        match self {
            PyxRefusal::BadLine => "BadLine",
            PyxRefusal::BadName => "BadName",
            PyxRefusal::EndMismatch => "EndMismatch",
            PyxRefusal::AttributeLate => "AttributeLate",
            PyxRefusal::AttributeTwice => "AttributeTwice",
            PyxRefusal::TooDeep => "TooDeep",
            PyxRefusal::TooManyNodes => "TooManyNodes",
            PyxRefusal::TooMuchText => "TooMuchText",
            PyxRefusal::Unclosed => "Unclosed",
        }
    }
}
