//! The values between the delimiters of strings and templates.

ghost use Rattle.std.specs.Prelude.{◌≡◌, ◌++◌, OnOk};
ghost use Rattle.dscript_print_tokens.specs.Spellings.{string_byte, in_string, ends_a_part, part_byte, in_part};

use std::alloc::AllocError;

/// Appends a byte of a string.
fn push_string_byte(text: &mut Vec<u8>, byte: u8) -> Result<(), AllocError>
    ensures { OnOk result (text.new.items ≡ text.old.items ++ string_byte byte) }
{
    match byte {
        b'\n' => text.extend_from_slice(b"\\n")?,
        b'"' | b'\\' => text.extend_from_slice(&[b'\\', byte])?,
        _ => text.push(byte)?,
    }
    Ok(())
}

/// Appends the value of a string in `"`.
pub(crate) fn push_in_string(text: &mut Vec<u8>, value: &[u8]) -> Result<(), AllocError>
    ensures { OnOk result (text.new.items ≡ text.old.items ++ in_string value.now) }
{
    'bytes: for byte in value {
        push_string_byte(text, *byte)?;
    }
    Ok(())
}

/// Whether the byte would end a part of a template before this rest, or begin an escape.
fn ends_a_part(byte: u8, rest: &[u8]) -> bool
    ensures { result ≡ ends_a_part byte rest.now }
{
    match byte {
        b'\\' | b'`' => true,
        b'$' => rest.first() == Some(&b'{'),
        _ => false,
    }
}

/// Appends a byte of a template, before the rest of its part.
fn push_part_byte(text: &mut Vec<u8>, byte: u8, rest: &[u8]) -> Result<(), AllocError>
    ensures { OnOk result (text.new.items ≡ text.old.items ++ part_byte byte rest.now) }
{
    if ends_a_part(byte, rest) {
        text.push(b'\\')?;
    }
    text.push(byte)?;
    Ok(())
}

/// Appends the value of a template or of a part of one.
pub(crate) fn push_in_part(text: &mut Vec<u8>, value: &[u8]) -> Result<(), AllocError>
    ensures { OnOk result (text.new.items ≡ text.old.items ++ in_part value.now) }
{
    let mut left = value;
    'bytes: while let Some((byte, rest)) = left.split_first() {
        push_part_byte(text, *byte, rest)?;
        left = rest;
    }
    Ok(())
}
