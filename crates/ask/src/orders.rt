// A line of a script: one call.
ghost use Rattle.std.specs.Prelude.{◌≤◌, length, IfSome};
ghost use Rattle.ask.specs.Orders.{OrderIn};

use client::state::SeekFrom;
use host::text;

#[derive(Clone, Copy)]
pub enum Order<'a> {
    Read { n: u64, file: &'a [u8] },
    Write { file: &'a [u8] },
    Seek(SeekFrom),
    Flush,
    Trim(u64),
    Resize(u64),
}

fn is_last(line: &[u8]) -> bool {
    text::is_end(text::skip(line))
}

// The number with which the line ends.
fn last_number(line: &[u8]) -> Option<u64> {
    let (n, rest) = text::number(text::skip(line))?;
    is_last(rest).then_some(n)
}

// `-` and a number, or a number, from -2^63 to 2^63 - 1.
fn last_signed(line: &[u8]) -> Option<i64> {
    match text::skip(line) {
        [b'-', rest @ ..] => 0i64.checked_sub_unsigned(last_number(rest)?),
        line => i64::try_from(last_number(line)?).ok(),
    }
}

// The file's name with which the line ends, put into the buffer.
fn last_name<'a>(line: &[u8], buffer: &'a mut [u8]) -> Option<&'a [u8]>
    ensures { IfSome result (λ name. length name.now ≤ length buffer.old) }
{
    let (name, rest) = text::name(text::skip(line), buffer).ok()?;
    if is_last(rest) { Some(name) } else { None }
}

// `read N FILE`
fn read<'a>(line: &[u8], buffer: &'a mut [u8]) -> Option<Order<'a>>
    ensures { IfSome result (OrderIn (length buffer.old)) }
{
    let (n, rest) = text::number(text::skip(line))?;
    let file = last_name(rest, buffer)?;
    Some(Order::Read { n, file })
}

// `seek start N`, `seek position N`, `seek end N`
fn seek(line: &[u8]) -> Option<SeekFrom> {
    match text::word(text::skip(line)) {
        (b"start", rest) => last_number(rest).map(SeekFrom::Start),
        (b"position", rest) => last_signed(rest).map(SeekFrom::Current),
        (b"end", rest) => last_signed(rest).map(SeekFrom::End),
        _ => None,
    }
}

// The order that the line's first word begins. A file's name is put into the buffer.
pub fn parse<'a>(line: &[u8], buffer: &'a mut [u8]) -> Option<Order<'a>>
    ensures { IfSome result (OrderIn (length buffer.old)) }
{
    let (word, rest) = text::word(line);
    Some(match word {
        b"read" => return read(rest, buffer),
        b"write" => Order::Write {
            file: last_name(rest, buffer)?,
        },
        b"seek" => Order::Seek(seek(rest)?),
        b"flush" if is_last(rest) => Order::Flush,
        b"trim" => Order::Trim(last_number(rest)?),
        b"resize" => Order::Resize(last_number(rest)?),
        _ => return None,
    })
}
