//! The classes of bytes, and how many bytes of a class a text begins with.

ghost use Rattle.std.specs.Prelude.{◌≡◌, ◌≤◌, length, not, ◌==◌};
ghost use Rattle.std.specs.List.{prefix_len};
ghost use Rattle.asl_grammar.specs.lexemes.Bytes.{is_blank, is_name_start, is_name_byte, is_decimal_byte, is_hex_digit, is_hex_byte};

/// Whether the byte is a space, a tab, a line feed or a carriage return.
pub fn is_blank(b: u8) -> bool
    ensures { result ≡ is_blank b }
{
    b == b' ' || b == b'\t' || b == b'\n' || b == b'\r'
}

/// Whether a name can begin with the byte.
pub fn is_name_start(b: u8) -> bool
    ensures { result ≡ is_name_start b }
{
    b.is_ascii_alphabetic() || b == b'_'
}

/// Whether the byte can stand in a name.
fn is_name_byte(b: u8) -> bool
    ensures { result ≡ is_name_byte b }
{
    is_name_start(b) || b.is_ascii_digit()
}

/// Whether the byte can stand in a decimal literal.
fn is_decimal_byte(b: u8) -> bool
    ensures { result ≡ is_decimal_byte b }
{
    b.is_ascii_digit() || b == b'_'
}

/// Whether the byte is a hexadecimal digit.
pub fn is_hex_digit(b: u8) -> bool
    ensures { result ≡ is_hex_digit b }
{
    b.is_ascii_digit() || (b >= b'a' && b <= b'f') || (b >= b'A' && b <= b'F')
}

/// Whether the byte can stand in a hexadecimal literal after its `0x`.
fn is_hex_byte(b: u8) -> bool
    ensures { result ≡ is_hex_byte b }
{
    is_hex_digit(b) || b == b'_'
}

/// Whether the byte is no line feed.
fn is_in_line(b: u8) -> bool
    ensures { result ≡ not (b == 10) }
{
    b != b'\n'
}

/// How many bytes of a name the text begins with.
pub fn name_len(bytes: &[u8]) -> usize
    ensures len { result ≡ prefix_len is_name_byte bytes.now }
    ensures fits { result ≤ length bytes.now }
{
    bytes.iter().take_while(|b| is_name_byte(**b)).count()
}

/// How many bytes of a decimal literal the text begins with.
pub fn decimal_len(bytes: &[u8]) -> usize
    ensures len { result ≡ prefix_len is_decimal_byte bytes.now }
    ensures fits { result ≤ length bytes.now }
{
    bytes.iter().take_while(|b| is_decimal_byte(**b)).count()
}

/// How many bytes of a hexadecimal literal, after its `0x`, the text begins with.
pub fn hex_len(bytes: &[u8]) -> usize
    ensures len { result ≡ prefix_len is_hex_byte bytes.now }
    ensures fits { result ≤ length bytes.now }
{
    bytes.iter().take_while(|b| is_hex_byte(**b)).count()
}

/// How many bytes stand before the next line feed, or before the end.
pub fn line_len(bytes: &[u8]) -> usize
    ensures len { result ≡ prefix_len (λ b. not (b == 10)) bytes.now }
    ensures fits { result ≤ length bytes.now }
{
    bytes.iter().take_while(|b| is_in_line(**b)).count()
}
