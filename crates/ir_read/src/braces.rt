//! Lines that are a brace alone, told by their bytes: no line in a function but the last is cut into tokens for this.
//!
//! The entry point is `is_lone_brace`. It is asked of lines without a lexical fault, and nothing here fails.

ghost use Rattle.std.specs.Prelude.{◌≡◌, ◌==◌, length};
ghost use Rattle.ir_lex.specs.Scan.{texts};
ghost use Rattle.ir_line.specs.Body.{is_brace};

use ir_lex::is_blank;

/// Whether the bytes have no token: spaces and tabs, up to their end or to a comment.
#[tactic(auto, unfolding(ir_lex::specs::Scan::texts))]
fn has_no_token(bytes: &[u8]) -> bool
    ensures { result ≡ (length (texts bytes.now) == 0) }
{
    let mut rest = bytes;
    'each: while let [byte, after @ ..] = rest {
        if !is_blank(*byte) {
            return *byte == b';';
        }
        rest = after;
    }
    true
}

/// Whether the only token of a line is a brace that closes.
#[tactic(auto, unfolding(ir_lex::specs::Scan::texts))]
pub(crate) fn is_lone_brace(line: &[u8]) -> bool
    ensures { result ≡ is_brace (texts line.now) }
{
    let mut rest = line;
    'each: while let [byte, after @ ..] = rest {
        if !is_blank(*byte) {
            return *byte == b'}' && has_no_token(after);
        }
        rest = after;
    }
    false
}
