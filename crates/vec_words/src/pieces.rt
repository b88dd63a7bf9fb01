//! Pieces of a word: what stands after a front, round a byte, before a last byte, between commas; and names.
//!
//! Nothing is copied. A part that is not there is none.

ghost use Rattle.std.specs.Prelude.{◌≡◌, ◌≤◌, IfSome, IfNone, None, Some, bytes_eq, false, length};
ghost use Rattle.std.specs.List.{list_all};
ghost use Rattle.vec_words.specs.Pieces as pieces;

/// Whether two texts are the same.
pub(crate) fn same_text(text: &[u8], wanted: &[u8]) -> bool
    ensures { result ≡ bytes_eq text.now wanted.now }
{
    text == wanted
}

/// What follows a front.
pub(crate) fn past<'a>(front: &[u8], text: &'a [u8]) -> Option<&'a [u8]>
    ensures found { IfSome result (λ rest. pieces.past front.now text.now ≡ Some rest.now) }
    ensures none { IfNone result (pieces.past front.now text.now ≡ None) }
{
    let mut wanted = front;
    let mut rest = text;
    'each: while let [byte, more @ ..] = wanted {
        let [first, others @ ..] = rest else {
            return None;
        };
        if *first != *byte {
            return None;
        }
        wanted = more;
        rest = others;
    }
    Some(rest)
}

/// How many bytes stand before the first that is `byte`.
fn len_to(byte: u8, text: &[u8]) -> usize
    ensures value { result ≡ pieces.len_to byte text.now }
    ensures within { result ≤ length text.now }
{
    let mut count = 0;
    let mut rest = text;
    'each: while let [first, after @ ..] = rest {
        if *first == byte {
            return count;
        }
        count += 1;
        rest = after;
    }
    count
}

/// What stands before and after the first byte that is `byte`.
#[tactic(auto, unfolding(crate::specs::Pieces::cut))]
pub(crate) fn cut(byte: u8, text: &[u8]) -> Option<(&[u8], &[u8])>
    ensures found { IfSome result (λ parts. pieces.cut byte text.now ≡ Some (parts.0.now, parts.1.now)) }
    ensures none { IfNone result (pieces.cut byte text.now ≡ None) }
{
    let at = len_to(byte, text);
    if at < text.len() {
        Some((&text[..at], &text[at + 1..]))
    } else {
        None
    }
}

/// What stands before the last byte, where that is `byte`.
#[tactic(auto, unfolding(crate::specs::Pieces::closed))]
pub(crate) fn closed(byte: u8, text: &[u8]) -> Option<&[u8]>
    ensures found { IfSome result (λ inner. pieces.closed byte text.now ≡ Some inner.now) }
    ensures none { IfNone result (pieces.closed byte text.now ≡ None) }
{
    if text.is_empty() {
        return None;
    }
    let end = text.len() - 1;
    if text[end] == byte {
        Some(&text[..end])
    } else {
        None
    }
}

/// Whether the next byte stands inside angle brackets.
fn inside_after(inside: bool, byte: u8) -> bool
    ensures { result ≡ pieces.inside_after inside byte }
{
    match byte {
        b'<' => true,
        b'>' => false,
        _ => inside,
    }
}

/// How many bytes stand before the first comma outside angle brackets.
fn piece_len(text: &[u8]) -> usize
    ensures value { result ≡ pieces.piece_len false text.now }
    ensures within { result ≤ length text.now }
{
    let mut count = 0;
    let mut inside = false;
    let mut rest = text;
    'each: while let [first, after @ ..] = rest {
        if *first == b',' && !inside {
            return count;
        }
        count += 1;
        inside = inside_after(inside, *first);
        rest = after;
    }
    count
}

/// What stands before that comma, and what stands after it if there is one.
#[tactic(auto, unfolding(crate::specs::Pieces::piece))]
pub(crate) fn piece(text: &[u8]) -> (&[u8], Option<&[u8]>)
    ensures front { result.0.now ≡ (pieces.piece text.now).0 }
    ensures rest { IfSome result.1 (λ rest. (pieces.piece text.now).1 ≡ Some rest.now) }
    ensures none { IfNone result.1 ((pieces.piece text.now).1 ≡ None) }
{
    let at = piece_len(text);
    if at < text.len() {
        (&text[..at], Some(&text[at + 1..]))
    } else {
        (&text[..at], None)
    }
}

/// Whether a byte may begin a plain name.
fn begins_name(byte: u8) -> bool
    ensures { result ≡ pieces.begins_name byte }
{
    byte.is_ascii_alphabetic() || byte == b'-' || byte == b'$' || byte == b'.' || byte == b'_'
}

/// Whether a plain name may go on with all these bytes.
fn all_go_on(bytes: &[u8]) -> bool
    ensures { result ≡ list_all pieces.goes_on bytes.now }
{
    for byte in bytes {
        if !goes_on(*byte) {
            return false;
        }
    }
    true
}

/// Whether a plain name may go on with a byte.
fn goes_on(byte: u8) -> bool
    ensures { result ≡ pieces.goes_on byte }
{
    begins_name(byte) || byte.is_ascii_digit()
}

/// Whether a text is a plain name.
pub(crate) fn is_name(text: &[u8]) -> bool
    ensures { result ≡ pieces.is_name text.now }
{
    match text {
        [] => false,
        [first, rest @ ..] => begins_name(*first) && all_go_on(rest),
    }
}

/// Whether a call word may begin with a name.
pub(crate) fn is_callable(text: &[u8]) -> bool
    ensures { result ≡ pieces.is_callable text.now }
{
    match text {
        [] => false,
        [first, ..] => *first != b'-' && is_name(text),
    }
}
