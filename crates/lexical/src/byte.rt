// Byte classes. Each is one expression without a branch, in the words of its definition. Behind them what stands at an index.
ghost use Rattle.std.specs.Prelude.{◌≡◌, ◌+◌, drop, unwrap_or};
ghost use Rattle.lexical.specs.Text.{none, first, run};
ghost use Rattle.lexical.specs.Class.{EndsRun};
ghost use Rattle.lexical.specs.Byte.{isLetter, isDigit, isTagNameByte, isAttributeNameStart, isAttributeNameByte, isSpaceOrTab, isLineEndingByte, isWhitespace, isQuote, isValueExcluded, isTagBreak, isNameBreak, isNameStart, isValueEnd, lower};

// An ASCII letter.
pub fn is_letter(b: u8) -> bool
    ensures { result ≡ isLetter b }
{
    b.is_ascii_alphabetic()
}

// An ASCII digit.
pub fn is_digit(b: u8) -> bool
    ensures { result ≡ isDigit b }
{
    b.is_ascii_digit()
}

// A byte of a tag name after its first.
pub fn is_tag_name_byte(b: u8) -> bool
    ensures { result ≡ isTagNameByte b }
{
    (b == b'-') | (is_digit(b) | is_letter(b))
}

// The first byte of an attribute name.
pub fn is_attribute_name_start(b: u8) -> bool
    ensures { result ≡ isAttributeNameStart b }
{
    is_letter(b) | ((b == b'_') | (b == b':'))
}

// A byte of an attribute name after its first.
pub fn is_attribute_name_byte(b: u8) -> bool
    ensures { result ≡ isAttributeNameByte b }
{
    is_tag_name_byte(b) | ((b == b'_') | ((b == b'.') | (b == b':')))
}

// A space or a tab.
pub fn is_space_or_tab(b: u8) -> bool
    ensures { result ≡ isSpaceOrTab b }
{
    (b == b' ') | (b == b'\t')
}

// A byte of a line ending.
pub fn is_line_ending_byte(b: u8) -> bool
    ensures { result ≡ isLineEndingByte b }
{
    (b == b'\n') | (b == b'\r')
}

// A space, a tab or a byte of a line ending.
pub fn is_whitespace(b: u8) -> bool
    ensures { result ≡ isWhitespace b }
{
    is_space_or_tab(b) | is_line_ending_byte(b)
}

// A quotation mark.
pub fn is_quote(b: u8) -> bool
    ensures { result ≡ isQuote b }
{
    (b == b'"') | (b == b'\'')
}

// No unquoted attribute value includes it.
pub fn is_value_excluded(b: u8) -> bool
    ensures { result ≡ isValueExcluded b }
{
    is_whitespace(b) | (is_quote(b) | ((b == b'=') | ((b == b'<') | ((b == b'>') | (b == b'`')))))
}

// What may follow a tag name or a quoted value.
pub fn is_tag_break(b: u8) -> bool
    ensures { result ≡ isTagBreak b }
{
    is_whitespace(b) | ((b == b'/') | (b == b'>'))
}

// The first byte of an attribute name in a grammar that may let a digit begin one.
pub fn is_name_start(digits: bool, b: u8) -> bool
    ensures { result ≡ isNameStart digits b }
{
    is_attribute_name_start(b) | (is_digit(b) & digits)
}

// What ends an unquoted attribute value in a grammar that may let `/` end one.
pub fn is_value_end(slash: bool, b: u8) -> bool
    ensures { result ≡ isValueEnd slash b }
{
    is_value_excluded(b) | ((b == b'/') & slash)
}

// An ASCII letter in lower case, and any other byte as it is.
pub fn to_ascii_lowercase(b: u8) -> u8
    ensures { result ≡ lower b }
{
    b.to_ascii_lowercase()
}

// The byte at an index, if there is one.
pub fn peek(bytes: &[u8], index: usize) -> Option<u8>
    ensures { unwrap_or result none ≡ first (drop index bytes.now) }
{
    bytes.get(index).copied()
}

// Whether a tag name may end at an index.
pub fn is_name_break(bytes: &[u8], index: usize) -> bool
    ensures { result ≡ isNameBreak (drop index bytes.now) }
{
    bytes.get(index).is_none_or(|b| is_tag_break(*b))
}

// Past the bytes of a class at an index. It is a loop, since `position` takes more instructions where the bytes are few.
pub(crate) fn class_end<F: Fn(u8) -> bool>(bytes: &[u8], index: usize, is: F) -> usize
    requires { F.IsAlwaysCallable is }
    ensures { EndsRun (F.post is) bytes.now index result }
{
    let mut i = index;
    while i < bytes.len() && is(bytes[i]) {
        i += 1;
    }
    i
}

// Past the tag name that begins at an index.
pub fn name_end(bytes: &[u8], index: usize) -> usize
    ensures { result ≡ index + run isTagNameByte (drop index bytes.now) }
{
    class_end(bytes, index, is_tag_name_byte)
}
