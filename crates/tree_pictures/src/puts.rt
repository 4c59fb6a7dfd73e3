// Pieces that are appended to a text.
ghost use Rattle.std.specs.Prelude.{◌≡◌, ◌++◌, OnOk, string_bytes, decimal, encode_utf8};

use std::alloc::AllocError;
use std::fmt::Write;

pub(crate) fn put(text: &str, out: &mut String) -> Result<(), AllocError>
    ensures { OnOk result (string_bytes out.new ≡ string_bytes out.old ++ text.now) }
{
    out.push_str(text)?;
    Ok(())
}

pub(crate) fn put_char(c: char, out: &mut String) -> Result<(), AllocError>
    ensures { OnOk result (string_bytes out.new ≡ string_bytes out.old ++ encode_utf8 c) }
{
    out.push(c)?;
    Ok(())
}

pub(crate) fn put_number(n: u64, out: &mut String) -> Result<(), AllocError>
    ensures { OnOk result (string_bytes out.new ≡ string_bytes out.old ++ decimal n) }
{
    write!(out, "{n}")?;
    Ok(())
}

pub(crate) fn put_long(n: u128, out: &mut String) -> Result<(), AllocError>
    ensures { OnOk result (string_bytes out.new ≡ string_bytes out.old ++ decimal n) }
{
    write!(out, "{n}")?;
    Ok(())
}
