//! Bytes as lines.
ghost use Rattle.std.specs.Prelude.{◌≡◌, ◌==◌, MatchOption, position};
ghost use Rattle.xml_model.specs.Pyx.{IsCutLine, IsPlain};

/// The bytes of a line, without its newline, and those behind it.
#[derive(Drop)]
pub struct CutLine<'a> {
    pub line: &'a [u8],
    pub rest: &'a [u8],
}

/// Cuts bytes at their first newline.
pub fn cut_line(bytes: &[u8]) -> Option<CutLine<'_>>
    ensures { MatchOption result (IsPlain bytes.now) (λ cut. IsCutLine bytes.now cut.line.now cut.rest.now) }
{
    let end = newline_in(bytes)?;
    Some(CutLine {
        line: &bytes[..end],
        rest: &bytes[end + 1..],
    })
}

// Where the first newline stands.
fn newline_in(bytes: &[u8]) -> Option<usize>
    ensures { result ≡ position (λ byte. byte == 10) bytes.now }
{
    bytes.iter().position(|byte| *byte == b'\n')
}
