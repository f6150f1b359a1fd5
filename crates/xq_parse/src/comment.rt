//! Comments.
ghost use Rattle.std.specs.Prelude.{◌≡◌, ◌<◌, ◌≤◌, ◌+◌, ◌^◌, ℕ, List, Option, length, option_map, codes, IfSome};
ghost use Rattle.xq_ast.specs.Tokens as spec;
ghost use Rattle.xq_parse.specs.Pieces.{turned};

use crate::front::behind;

/// How many comments are open, and what stands behind what was read.
#[derive(Drop)]
pub(crate) struct CommentTurn<'a> {
    opened: usize,
    rest: &'a [u8],
}

/// At an opening mark one more comment is open, at a closing mark one less. `below` is the number
/// of comments that stand around the innermost.
fn comment_turn(bytes: &[u8], below: usize) -> Option<CommentTurn<'_>>
    requires { below + 2 < 2 ^ 64 }
    ensures turned { (more : ℕ → List ℕ → Option (List ℕ)) → spec.comment_turn (spec.behind (codes "(:") bytes.now) (spec.behind (codes ":)") bytes.now) bytes.now below more ≡ turned result more }
    ensures less { IfSome result (λ t. length t.rest.now < length bytes.now) }
    ensures few { IfSome result (λ t. t.opened + length t.rest.now ≤ below + 1 + length bytes.now) }
{
    if let Some(rest) = behind(bytes, b"(:") {
        return Some(CommentTurn {
            opened: below + 2,
            rest,
        });
    }
    if let Some(rest) = behind(bytes, b":)") {
        return Some(CommentTurn {
            opened: below,
            rest,
        });
    }
    match bytes {
        [] => None,
        [_, rest @ ..] => Some(CommentTurn {
            opened: below + 1,
            rest,
        }),
    }
}

/// What stands behind a comment, of which this stands behind its opening mark.
pub(crate) fn behind_comment(inside: &[u8]) -> Option<&[u8]>
    ensures { spec.behind_comments (length inside.now) 1 inside.now ≡ option_map (λ rest. rest.now) result }
{
    let mut rest = inside;
    let mut opened: usize = 1;
    'comments: while opened > 0 {
        let turn = comment_turn(rest, opened - 1)?;
        opened = turn.opened;
        rest = turn.rest;
    }
    Some(rest)
}
