//! Classes of bytes, and how far a class goes on.

ghost use Rattle.std.specs.Prelude.{◌≡◌, ◌+◌, ◌*◌, ◌^◌, ◌<◌, ◌≤◌, ◌==◌, None, length, take, drop, MatchOption};
ghost use Rattle.std.specs.List.{prefix_len, position_or_len};
ghost use Rattle.std.specs.Option.{SomeIff};
ghost use Rattle.cb_model.specs.Text.{is_small, is_capital, is_digit, is_word};
ghost use Rattle.cb_model.specs.Tokens.{is_quotable, is_layout};
ghost use Rattle.cb_lex.specs.Digits.{Writes};
ghost use Rattle.cb_lex.specs.Scans.{IsSkipped, SameTokens};

/// Whether a byte is a letter `A` to `Z` or `_`.
pub fn is_capital(byte: u8) -> bool
    ensures { result ≡ is_capital byte }
{
    (65 <= byte && byte <= 90) || byte == 95
}

/// Whether a byte is a letter `a` to `z`.
pub fn is_small(byte: u8) -> bool
    ensures { result ≡ is_small byte }
{
    97 <= byte && byte <= 122
}

/// Whether a byte is a digit.
pub fn is_digit(byte: u8) -> bool
    ensures { result ≡ is_digit byte }
{
    48 <= byte && byte <= 57
}

/// Whether a byte is a letter, a digit or `_`.
pub fn is_word(byte: u8) -> bool
    ensures { result ≡ is_word byte }
{
    is_small(byte) || is_capital(byte) || is_digit(byte)
}

/// Whether a byte may stand in a quoted atom.
pub fn is_quotable(byte: u8) -> bool
    ensures { result ≡ is_quotable byte }
{
    32 <= byte && byte <= 126 && byte != 39
}

/// Whether a byte is layout.
pub fn is_layout(byte: u8) -> bool
    ensures { result ≡ is_layout byte }
{
    byte == 32 || byte == 9 || byte == 10 || byte == 13
}

/// How many letters, digits and `_` come first.
pub fn word_run(bytes: &[u8]) -> usize
    ensures count { result ≡ prefix_len is_word bytes.now }
    ensures within { result ≤ length bytes.now }
{
    let mut n = 0;
    while n < bytes.len() && is_word(bytes[n]) {
        n += 1;
    }
    n
}

/// How many bytes come first that may stand in a quoted atom.
pub fn quotable_run(bytes: &[u8]) -> usize
    ensures count { result ≡ prefix_len is_quotable bytes.now }
    ensures within { result ≤ length bytes.now }
{
    let mut n = 0;
    while n < bytes.len() && is_quotable(bytes[n]) {
        n += 1;
    }
    n
}

/// How many bytes come before the end of the line.
pub fn line_run(bytes: &[u8]) -> usize
    ensures count { result ≡ position_or_len (λ x. x == 10) bytes.now }
    ensures within { result ≤ length bytes.now }
{
    let mut n = 0;
    while n < bytes.len() && bytes[n] != b'\n' {
        n += 1;
    }
    n
}

/// How many digits come first, and the number that they write where it is below 2 ^ 64.
pub fn digits(bytes: &[u8]) -> (usize, Option<u64>)
    ensures count { result.0 ≡ prefix_len is_digit bytes.now }
    ensures within { result.0 ≤ length bytes.now }
    ensures value { Writes (take result.0 bytes.now) result.1 }
{
    let mut n = 0;
    let mut value = Some(0);
    while n < bytes.len() && is_digit(bytes[n]) {
        value = with_digit(value, bytes[n] - b'0');
        n += 1;
    }
    (n, value)
}

/// The number with one more digit behind it, where it is below 2 ^ 64.
fn with_digit(value: Option<u64>, digit: u8) -> Option<u64>
    ensures { MatchOption value (result ≡ None) (λ n. SomeIff result (10 * n + digit < 2 ^ 64) (10 * n + digit)) }
{
    value?.checked_mul(10)?.checked_add(u64::from(digit))
}

/// The place behind layout and comments, and its line.
pub fn skip(source: &[u8], place: usize, line: u32) -> (usize, u32)
    requires within { place ≤ length source.now }
    requires short { length source.now < 2 ^ 31 }
    requires line_within { line ≤ place + 1 }
    ensures within { result.0 ≤ length source.now }
    ensures forward { place ≤ result.0 }
    ensures line_within { result.1 ≤ result.0 + 1 }
    ensures skipped { IsSkipped (drop result.0 source.now) }
    ensures same { SameTokens place line (drop place source.now) result.0 result.1 (drop result.0 source.now) }
{
    let mut at = place;
    let mut line = line;
    while at < source.len() {
        let byte = source[at];
        if is_layout(byte) {
            if byte == b'\n' {
                line += 1;
            }
            at += 1;
        } else if byte == b'%' {
            at += 1 + line_run(&source[at + 1..]);
        } else {
            break;
        }
    }
    (at, line)
}
