// Lines of text for programs: words between blanks, decimal numbers, names that may be quoted; `#` starts a comment.
// Each function takes a line, or what is left of one, and gives what is at its front and what is behind that.
ghost use Rattle.std.specs.Prelude.{◌≡◌, ◌+◌, ◌≤◌, ◌++◌, length, IfSome, IfOk};
ghost use Rattle.host.specs.Text.{Behind, ends};

use std::fmt;

// What is wrong with a line.
#[derive(Clone, Copy)]
pub enum Mistake {
    NoQuote,
    Escape,
    LongName,
    NoNumber,
    Word,
}

impl fmt::Display for Mistake {
    fn fmt<W: fmt::Write>(&self, f: &mut fmt::Formatter<W>) -> fmt::Result {
        f.write_str(match self {
            Mistake::NoQuote => "a quote is missing, or one is too much",
            Mistake::Escape => "behind a backslash, only \\\\, \\\" and \\xHH are known",
            Mistake::LongName => "the name is longer than 4096 bytes",
            Mistake::NoNumber =>
                "behind the name, start and size are two decimal numbers below 2^64",
            Mistake::Word => "only the words readonly, resizeable, rotational and trim may follow",
        })
    }
}

fn is_blank(b: u8) -> bool {
    matches!(b, b' ' | b'\t' | b'\r')
}

// The bytes in front of the first that is such a one, and the rest.
fn cut<F: Fn(u8) -> bool>(line: &[u8], is_such: F) -> (&[u8], &[u8])
    requires { F.IsAlwaysCallable is_such }
    ensures parts { result.0.now ++ result.1.now ≡ line.now }
    ensures lengths { length result.0.now + length result.1.now ≡ length line.now }
{
    let n = line.iter().position(|b| is_such(*b)).unwrap_or(line.len());
    line.split_at(n)
}

// The line from the first byte on that is no blank.
pub fn skip(line: &[u8]) -> &[u8]
    ensures rest { Behind line.now result.now }
    ensures length { length result.now ≤ length line.now }
{
    let (_, rest) = cut(line, |b| !is_blank(b));
    rest
}

// The word at the front.
pub fn word(line: &[u8]) -> (&[u8], &[u8])
    ensures parts { result.0.now ++ result.1.now ≡ line.now }
    ensures lengths { length result.0.now + length result.1.now ≡ length line.now }
{
    cut(line, |b| is_blank(b) || b == b'#')
}

// Whether nothing but a comment is left.
pub fn is_end(line: &[u8]) -> bool
    ensures { result ≡ ends line.now }
{
    matches!(line, [] | [b'#', ..])
}

// ---- numbers

// A whole word of decimal digits, below 2^64.
pub fn number(line: &[u8]) -> Option<(u64, &[u8])>
    ensures { IfSome result (λ found. Behind line.now found.1.now) }
{
    let (word, rest) = word(line);
    if word.is_empty() {
        return None;
    }
    let mut value: u64 = 0;
    for b in word {
        let digit = char::from(*b).to_digit(10)?;
        value = value.checked_mul(10)?.checked_add(u64::from(digit))?;
    }
    Some((value, rest))
}

// ---- names

// The byte that two hexadecimal digits name.
fn hex_byte(high: u8, low: u8) -> Option<u8> {
    let high = char::from(high).to_digit(16)?;
    let low = char::from(low).to_digit(16)?;
    Some((16 * high + low) as u8)
}

// Behind a backslash: itself, a quote, or `x` and two hexadecimal digits.
fn escaped(line: &[u8]) -> Result<(Option<u8>, &[u8]), Mistake>
    ensures { IfOk result (λ found. Behind line.now found.1.now) }
{
    match line {
        [b @ (b'"' | b'\\'), rest @ ..] => Ok((Some(*b), rest)),
        [b'x', high, low, rest @ ..] => match hex_byte(*high, *low) {
            None => Err(Mistake::Escape),
            byte => Ok((byte, rest)),
        },
        _ => Err(Mistake::Escape),
    }
}

// A byte of a quoted name, or none for the quote at its end.
fn glyph(line: &[u8]) -> Result<(Option<u8>, &[u8]), Mistake>
    ensures { IfOk result (λ found. Behind line.now found.1.now) }
{
    match line {
        [] => Err(Mistake::NoQuote),
        [b'"', rest @ ..] => Ok((None, rest)),
        [b'\\', rest @ ..] => escaped(rest),
        [b, rest @ ..] => Ok((Some(*b), rest)),
    }
}

// A quoted name, behind its first quote: how many bytes it has.
fn quoted<'a>(line: &'a [u8], buffer: &mut [u8]) -> Result<(usize, &'a [u8]), Mistake>
    ensures fits { IfOk result (λ found. found.0 ≤ length buffer.old) }
    ensures rest { IfOk result (λ found. Behind line.now found.1.now) }
{
    let mut left = line;
    for (len, place) in buffer.iter_mut().enumerate() {
        let (byte, rest) = glyph(left)?;
        match byte {
            Some(b) => *place = b,
            None => return Ok((len, rest)),
        }
        left = rest;
    }
    match glyph(left)? {
        (Some(_), _) => Err(Mistake::LongName),
        (None, rest) => Ok((buffer.len(), rest)),
    }
}

// A name that is one word without quotes: how many bytes it has.
fn plain<'a>(line: &'a [u8], buffer: &mut [u8]) -> Result<(usize, &'a [u8]), Mistake>
    ensures fits { IfOk result (λ found. found.0 ≤ length buffer.old) }
    ensures rest { IfOk result (λ found. Behind line.now found.1.now) }
{
    let (word, rest) = word(line);
    let len = word.len();
    if buffer.len() < len {
        return Err(Mistake::LongName);
    }
    if word.contains(&b'"') {
        return Err(Mistake::NoQuote);
    }
    buffer[..len].copy_from_slice(word);
    Ok((len, rest))
}

// A name, put at the front of the buffer: how many bytes it has.
fn put<'a>(line: &'a [u8], buffer: &mut [u8]) -> Result<(usize, &'a [u8]), Mistake>
    ensures fits { IfOk result (λ found. found.0 ≤ length buffer.old) }
    ensures rest { IfOk result (λ found. Behind line.now found.1.now) }
{
    match line {
        [b'"', behind @ ..] => quoted(behind, buffer),
        _ => plain(line, buffer),
    }
}

// A name, put at the front of the buffer.
pub fn name<'a, 'b>(line: &'a [u8], buffer: &'b mut [u8]) -> Result<(&'b [u8], &'a [u8]), Mistake>
    ensures fits { IfOk result (λ found. length found.0.now ≤ length buffer.old) }
    ensures rest { IfOk result (λ found. Behind line.now found.1.now) }
{
    let (len, rest) = put(line, buffer)?;
    Ok((&buffer[..len], rest))
}
