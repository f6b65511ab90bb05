// The words behind an export's window.
ghost use Rattle.std.specs.Prelude.{◌<◌, length, OnSome};

use host::text;
use host::text::Mistake;

// The flag that a word names.
fn flag(word: &[u8]) -> Option<u8>
    ensures { OnSome result (0 < length word.now) }
{
    match word {
        b"readonly" => Some(1),
        b"resizeable" => Some(2),
        b"rotational" => Some(4),
        b"trim" => Some(8),
        _ => None,
    }
}

// The flags that the words name. A word may stand twice.
pub fn in_words(line: &[u8]) -> Result<u8, Mistake> {
    let mut flags = 0;
    let mut rest = text::skip(line);
    // a turn goes as far as one word does
    while !text::is_end(rest) {
        let (word, behind) = text::word(rest);
        flags |= flag(word).ok_or(Mistake::Word)?;
        rest = text::skip(behind);
    }
    Ok(flags)
}
