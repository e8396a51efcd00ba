ghost use Rattle.std.specs.Prelude.{◌≡◌, ◌≤◌, ◌<◌, ◌+◌, ◌∷◌, ℕ, [], true, false, length, drop, unwrap_or, slice_index, slice_range, None, Some, IfOk, IfErr, IfSome, MatchResult, MatchOption, IsAscii};
ghost use Rattle.std.specs.Char.{is_ascii_digit, is_ascii_lowercase, is_ascii_uppercase};
ghost use Rattle.std.specs.List.{prefix_len};
ghost use Rattle.formula_ast.specs.Tokens as spec;
ghost use Rattle.formula_ast.specs.Tokens.{front, kind_in, kind_of, marks, reserved, tokens_of, tokens_at, end, bad, token};
ghost use Rattle.formula_tokens.specs.Fronts.{begins_word, separates};

use formula_ast::{Token, TokenKind};

fn is_blank(b: u8) -> bool
    ensures { result ≡ spec.is_blank b }
{
    b == b' ' || b == b'\t' || b == b'\n' || b == b'\r'
}

fn is_word_byte(b: u8) -> bool
    ensures { result ≡ spec.is_word_byte b }
{
    b.is_ascii_alphanumeric() || b == b'_'
}

// How many bytes at the front are of a word.
#[tactic(auto, using(crate::proofs::Runs::within))]
fn word_len(bytes: &[u8]) -> usize
    ensures within { result ≤ length bytes.now }
    ensures value { result ≡ prefix_len (λ b. spec.is_word_byte b) bytes.now }
{
    bytes.iter().take_while(|b| is_word_byte(**b)).count()
}

// How many digits stand at the front.
#[tactic(auto, using(crate::proofs::Runs::within))]
fn digits_len(bytes: &[u8]) -> usize
    ensures within { result ≤ length bytes.now }
    ensures value { result ≡ prefix_len (λ b. is_ascii_digit b) bytes.now }
{
    bytes.iter().take_while(|b| b.is_ascii_digit()).count()
}

// How many bytes at the front are blanks and comments.
fn blank_len(bytes: &[u8]) -> usize
    ensures within { result ≤ length bytes.now }
    ensures passes { (at : ℕ) → tokens_of 0 at bytes.now ≡ tokens_of 0 (at + result) (drop result bytes.now) }
    ensures stops { result < length bytes.now → separates (slice_index bytes.now result) ≡ false }
{
    let mut n = 0;
    let mut in_comment = false;
    'bytes: for b in bytes {
        if in_comment {
            in_comment = *b != b'\n';
        } else if *b == b'%' {
            in_comment = true;
        } else if !is_blank(*b) {
            return n;
        }
        n += 1;
    }
    n
}

// The byte at a place, or 0 past the end.
fn byte_at(bytes: &[u8], i: usize) -> u8
    ensures { result ≡ slice_index bytes.now i }
{
    if i < bytes.len() { bytes[i] } else { 0 }
}

// The kind of a word that begins with a small letter.
fn word_kind(text: &[u8]) -> TokenKind
    ensures { result ≡ unwrap_or (kind_in reserved text.now) TokenKind.Name }
{
    if text == b"symbol".as_slice() {
        TokenKind::Symbol
    } else if text == b"pred".as_slice() {
        TokenKind::Pred
    } else if text == b"solve".as_slice() {
        TokenKind::Solve
    } else if text == b"exists".as_slice() {
        TokenKind::Exists
    } else if text == b"forall".as_slice() {
        TokenKind::Forall
    } else if text == b"finite".as_slice() {
        TokenKind::Finite
    } else if text == b"win".as_slice() {
        TokenKind::Win
    } else if text == b"true".as_slice() {
        TokenKind::True
    } else if text == b"false".as_slice() {
        TokenKind::False
    } else {
        TokenKind::Name
    }
}

// The mark of one byte.
fn single_mark(first: u8) -> Option<TokenKind>
    ensures { result ≡ kind_in marks (first ∷ []) }
{
    match first {
        b'(' => Some(TokenKind::LeftParen),
        b')' => Some(TokenKind::RightParen),
        b',' => Some(TokenKind::Comma),
        b'.' => Some(TokenKind::Stop),
        b'/' => Some(TokenKind::Slash),
        b'&' => Some(TokenKind::Amp),
        b'|' => Some(TokenKind::Bar),
        b'~' => Some(TokenKind::Tilde),
        b'=' => Some(TokenKind::Equal),
        b':' => Some(TokenKind::Colon),
        _ => None,
    }
}

// The mark of two bytes.
fn double_mark(first: u8, second: u8) -> Option<TokenKind>
    ensures { result ≡ kind_in marks (first ∷ second ∷ []) }
{
    match (first, second) {
        (b'!', b'=') => Some(TokenKind::Differ),
        (b':', b'=') => Some(TokenKind::Define),
        (b'-', b'>') => Some(TokenKind::Arrow),
        _ => None,
    }
}

// The mark of three bytes.
fn triple_mark(first: u8, second: u8, third: u8) -> Option<TokenKind>
    ensures { result ≡ kind_in marks (first ∷ second ∷ third ∷ []) }
{
    if first == b'<' && second == b'-' && third == b'>' {
        Some(TokenKind::DoubleArrow)
    } else {
        None
    }
}

// The word at the front.
fn word_front(bytes: &[u8]) -> Option<(TokenKind, usize)>
    requires { is_ascii_lowercase (slice_index bytes.now 0) ≡ true }
    ensures { result ≡ front bytes.now }
{
    let len = word_len(bytes);
    Some((word_kind(&bytes[..len]), len))
}

// The variable at the front.
fn variable_front(bytes: &[u8]) -> Option<(TokenKind, usize)>
    requires { is_ascii_uppercase (slice_index bytes.now 0) ≡ true }
    ensures { result ≡ front bytes.now }
{
    Some((TokenKind::Variable, word_len(bytes)))
}

// The number at the front.
fn number_front(bytes: &[u8]) -> Option<(TokenKind, usize)>
    requires { is_ascii_digit (slice_index bytes.now 0) ≡ true }
    ensures { result ≡ front bytes.now }
{
    Some((TokenKind::Number, digits_len(bytes)))
}

// The further symbol at the front: `$` and digits.
fn further_front(bytes: &[u8]) -> Option<(TokenKind, usize)>
    requires { slice_index bytes.now 0 ≡ 36 }
    ensures { result ≡ front bytes.now }
{
    if bytes.is_empty() {
        return None;
    }
    let len = digits_len(after(bytes, 1));
    if len == 0 {
        None
    } else {
        Some((TokenKind::Further, len + 1))
    }
}

// The mark at the front.
fn mark_front(bytes: &[u8]) -> Option<(TokenKind, usize)>
    requires { begins_word (slice_index bytes.now 0) ≡ false }
    ensures { result ≡ front bytes.now }
{
    let first = byte_at(bytes, 0);
    let second = byte_at(bytes, 1);
    if let Some(kind) = triple_mark(first, second, byte_at(bytes, 2)) {
        Some((kind, 3))
    } else if let Some(kind) = double_mark(first, second) {
        Some((kind, 2))
    } else {
        single_mark(first).map(|kind| (kind, 1))
    }
}

// The longest token at the front, and its length.
fn front(bytes: &[u8]) -> Option<(TokenKind, usize)>
    ensures value { result ≡ front bytes.now }
    ensures within { IfSome result (λ found. (0 < found.1) × (found.1 ≤ length bytes.now)) }
{
    let first = byte_at(bytes, 0);
    if first.is_ascii_lowercase() {
        word_front(bytes)
    } else if first.is_ascii_uppercase() {
        variable_front(bytes)
    } else if first.is_ascii_digit() {
        number_front(bytes)
    } else if first == b'$' {
        further_front(bytes)
    } else {
        mark_front(bytes)
    }
}

// What comes from a place on.
fn after(bytes: &[u8], from: usize) -> &[u8]
    requires { from ≤ length bytes.now }
    ensures { result.now ≡ drop from bytes.now }
{
    bytes.split_at(from).1
}

/// The first token at or after the offset `from`, or none where only blanks and comments are left. The error is the
/// offset of a byte before the next token that is neither blank nor in a comment and begins no token.
pub fn next_token(bytes: &[u8], from: usize) -> Result<Option<Token>, usize>
    requires { from ≤ length bytes.now }
    // the tokens from here on begin with the answer
    ensures begins { MatchResult result
        (λ found. MatchOption found
        (tokens_at bytes.now from ≡ end (length bytes.now))
        (λ next. tokens_at bytes.now from ≡ token next (tokens_at bytes.now next.to)))
        (λ at. tokens_at bytes.now from ≡ bad at) }
    ensures within { IfOk result (λ found. IfSome found (λ next.
        (from ≤ next.from) × (next.from < next.to) × (next.to ≤ length bytes.now))) }
    ensures kind { IfOk result (λ found. IfSome found (λ next.
        kind_of (slice_range bytes.now next.from next.to) ≡ Some next.kind)) }
    ensures ascii { IfOk result (λ found. IfSome found (λ next.
        IsAscii (slice_range bytes.now next.from next.to))) }
    ensures longest { IfOk result (λ found. IfSome found (λ next.
        (to : ℕ) → next.to < to → to ≤ length bytes.now → kind_of (slice_range bytes.now next.from to) ≡ None)) }
    ensures refused { IfErr result (λ at. (from ≤ at) × (at < length bytes.now)) }
    ensures no_token { IfErr result (λ at.
        (to : ℕ) → at < to → to ≤ length bytes.now → kind_of (slice_range bytes.now at to) ≡ None) }
{
    let start = from + blank_len(after(bytes, from));
    if start == bytes.len() {
        return Ok(None);
    }
    match front(after(bytes, start)) {
        Some((kind, len)) => Ok(Some(Token {
            kind,
            from: start,
            to: start + len,
        })),
        None => Err(start),
    }
}

#[cfg(test)]
mod tests {
    use super::*;

    #[test]
    fn each_kind_has_its_text(rt: HostRuntime) {
        for (text, kind) in [
            ("x1", TokenKind::Name),
            ("X_y", TokenKind::Variable),
            ("0042", TokenKind::Number),
            ("$7", TokenKind::Further),
            ("symbol", TokenKind::Symbol),
            ("pred", TokenKind::Pred),
            ("solve", TokenKind::Solve),
            ("exists", TokenKind::Exists),
            ("forall", TokenKind::Forall),
            ("finite", TokenKind::Finite),
            ("win", TokenKind::Win),
            ("true", TokenKind::True),
            ("false", TokenKind::False),
            ("(", TokenKind::LeftParen),
            (")", TokenKind::RightParen),
            (",", TokenKind::Comma),
            (".", TokenKind::Stop),
            ("/", TokenKind::Slash),
            ("&", TokenKind::Amp),
            ("|", TokenKind::Bar),
            ("~", TokenKind::Tilde),
            ("=", TokenKind::Equal),
            ("!=", TokenKind::Differ),
            (":", TokenKind::Colon),
            (":=", TokenKind::Define),
            ("->", TokenKind::Arrow),
            ("<->", TokenKind::DoubleArrow),
        ] {
            let found = next_token(text.as_bytes(), 0);
            assert_eq!(rt;
                found,
                Ok(Some(Token {
                    kind,
                    from: 0,
                    to: text.len()
                })),
                "{text}"
            );
        }
    }

    #[test]
    fn a_token_is_the_longest_that_fits(rt: HostRuntime) {
        for (text, kind, to) in [
            ("truex", TokenKind::Name, 5),
            ("true_", TokenKind::Name, 5),
            ("aB_9", TokenKind::Name, 4),
            ("Ab-", TokenKind::Variable, 2),
            ("12ab", TokenKind::Number, 2),
            ("$007", TokenKind::Further, 4),
            ("$12ab", TokenKind::Further, 3),
            (":==", TokenKind::Define, 2),
            (": =", TokenKind::Colon, 1),
            ("x->y", TokenKind::Name, 1),
        ] {
            assert_eq!(rt;
                next_token(text.as_bytes(), 0),
                Ok(Some(Token { kind, from: 0, to })),
                "{text}"
            );
        }
    }

    #[test]
    fn some_bytes_begin_no_token(rt: HostRuntime) {
        for (text, at) in [
            ("$", 0),
            (" $ 7", 1),
            ("!", 0),
            ("! =", 0),
            ("-", 0),
            ("- >", 0),
            ("<", 0),
            ("<-", 0),
            ("<-x", 0),
            ("_a", 0),
            ("\x0c", 0),
            ("% c\n\n#", 5),
            ("é", 0),
        ] {
            assert_eq!(rt; next_token(text.as_bytes(), 0), Err(at), "{text}");
        }
    }

    #[test]
    fn blanks_and_comments_are_passed_over(rt: HostRuntime) {
        for text in ["", " \t\n\r", "%", "% to the end", "% a\r b", " % a\n%b"] {
            assert_eq!(rt; next_token(text.as_bytes(), 0), Ok(None), "{text}");
        }
        for (text, from, at) in [
            ("% a\rb\nc", 0, 6),
            ("a%b\nc", 1, 4),
            ("% % \n\t c", 0, 7),
            ("a b c", 3, 4),
        ] {
            assert!(rt; from <= text.len());
            let found = next_token(text.as_bytes(), from);
            assert_eq!(rt;
                found,
                Ok(Some(Token {
                    kind: TokenKind::Name,
                    from: at,
                    to: at + 1
                })),
                "{text}"
            );
        }
    }

    #[test]
    fn a_whole_text_is_read_token_by_token(rt: HostRuntime) {
        let bytes = b"solve exists X: X = f(a,X). % end".as_slice();
        let mut from = 0;
        for (kind, at, to) in [
            (TokenKind::Solve, 0, 5),
            (TokenKind::Exists, 6, 12),
            (TokenKind::Variable, 13, 14),
            (TokenKind::Colon, 14, 15),
            (TokenKind::Variable, 16, 17),
            (TokenKind::Equal, 18, 19),
            (TokenKind::Name, 20, 21),
            (TokenKind::LeftParen, 21, 22),
            (TokenKind::Name, 22, 23),
            (TokenKind::Comma, 23, 24),
            (TokenKind::Variable, 24, 25),
            (TokenKind::RightParen, 25, 26),
            (TokenKind::Stop, 26, 27),
        ] {
            assert!(rt; from <= bytes.len());
            assert_eq!(rt;
                next_token(bytes, from),
                Ok(Some(Token { kind, from: at, to }))
            );
            from = to;
        }
        assert!(rt; from <= bytes.len());
        assert_eq!(rt; next_token(bytes, from), Ok(None));
    }
}
