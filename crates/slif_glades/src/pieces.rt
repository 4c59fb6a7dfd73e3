// Pieces of the text that is told.
ghost use Rattle.std.specs.Prelude.{◌≡◌, ◌++◌, chars, decimal, OnOk};
ghost use Rattle.slif_glades.specs.Pieces.{shown, shown_char, spaces};

use itoa::Buffer;
use std::alloc::AllocError;

/// How many characters of a text are told.
pub(crate) const MOST_CHARACTERS: usize = 40;

/// Pushes bytes.
pub(crate) fn push(bytes: &[u8], text: &mut Vec<u8>) -> Result<(), AllocError>
    ensures { OnOk result (text.new.items ≡ text.old.items ++ bytes.now) }
{
    text.extend_from_slice(bytes)?;
    Ok(())
}

/// Pushes a number in decimal digits.
pub(crate) fn push_number(number: usize, text: &mut Vec<u8>) -> Result<(), AllocError>
    ensures { OnOk result (text.new.items ≡ text.old.items ++ decimal number) }
{
    push(Buffer::new().format(number).as_bytes(), text)
}

/// Pushes so many spaces.
pub(crate) fn push_spaces(count: usize, text: &mut Vec<u8>) -> Result<(), AllocError>
    ensures { OnOk result (text.new.items ≡ text.old.items ++ spaces count) }
{
    for _ in 0..count {
        push(b" ", text)?;
    }
    Ok(())
}

fn push_char(c: char, text: &mut Vec<u8>) -> Result<(), AllocError>
    ensures { OnOk result (text.new.items ≡ text.old.items ++ shown_char c) }
{
    if c.is_control() {
        return push(b" ", text);
    }
    push(c.encode_utf8(&mut [0; 4]).as_bytes(), text)
}

/// Pushes a text on one line, and no more of it than can be taken in.
pub(crate) fn push_shown(whole: &str, text: &mut Vec<u8>) -> Result<(), AllocError>
    ensures { OnOk result (text.new.items ≡ text.old.items ++ shown MOST_CHARACTERS
        (chars whole.now)) }
{
    let mut left = MOST_CHARACTERS;
    for c in whole.chars() {
        if left == 0 {
            return push(b"..", text);
        }
        push_char(c, text)?;
        left -= 1;
    }
    Ok(())
}
