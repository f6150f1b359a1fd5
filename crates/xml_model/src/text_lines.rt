//! Texts as lines.
ghost use Rattle.std.specs.Prelude.{◌≡◌, [], MatchOption};
ghost use Rattle.xml_model.specs.Pyx.{IsFirstLine, IsCutLine, IsPlain};

/// The first line of a text, without its newline, and what stands behind it.
#[derive(Drop)]
pub struct FirstLine<'a> {
    pub line: &'a str,
    /// Whether a newline ends the line.
    pub is_ended: bool,
    pub rest: &'a str,
}

/// What stands before the first newline, and what behind it.
fn cut_line(text: &str) -> Option<(&str, &str)>
    ensures { MatchOption result (IsPlain text.now) (λ x. IsCutLine text.now x.0.now x.1.now) }
{
    text.split_once('\n')
}

/// The first line of a text that is not empty. A last newline ends the last line and begins none.
/// Not by `str::lines`, since this keeps a carriage return and tells whether a newline ends the line.
pub fn first_line(text: &str) -> Option<FirstLine<'_>>
    ensures { MatchOption result (text.now ≡ []) (λ f. IsFirstLine text.now f.line.now f.is_ended f.rest.now) }
{
    if text.is_empty() {
        return None;
    }
    match cut_line(text) {
        Some((line, rest)) => Some(FirstLine {
            line,
            is_ended: true,
            rest,
        }),
        None => Some(FirstLine {
            line: text,
            is_ended: false,
            rest: "",
        }),
    }
}
