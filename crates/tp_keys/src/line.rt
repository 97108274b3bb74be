//! A key and its value as a line of text.
ghost use Rattle.std.specs.Prelude.{◌≡◌, ◌++◌, OnOk, OnErr};
ghost use Rattle.tp_names.specs.Writing.{Keeps};
ghost use Rattle.tp_keys.specs.Lines.{value_text, key_line};

use std::alloc::Global;
use tp_names::{NoMemory, Octets};

// The value in hexadecimal, which has no digits where it is empty.
fn write_value(alloc: Global, value: &[u8], text: &mut Octets) -> Result<(), NoMemory>
    ensures ok { OnOk result (text.new ≡ text.old ++ value_text value.now) }
    ensures err { OnErr result (Keeps text.old text.new) }
{
    match value {
        [] => text.push(alloc, b'-')?,
        _ => text.extend_from_slice(alloc, hex::encode(alloc, value)?.as_bytes())?,
    }
    Ok(())
}

/// Puts the line of a key and its value at the end of the text. Without memory part of it may stand there.
pub fn write_line(
    alloc: Global,
    key: &[u8],
    value: &[u8],
    text: &mut Octets,
) -> Result<(), NoMemory>
    ensures ok { OnOk result (text.new ≡ text.old ++ key_line key.now value.now) }
    ensures err { OnErr result (Keeps text.old text.new) }
{
    let key = hex::encode(alloc, key)?;
    text.extend_from_slice(alloc, key.as_bytes())?;
    text.push(alloc, b' ')?;
    write_value(alloc, value, text)?;
    text.push(alloc, b'\n')?;
    Ok(())
}
