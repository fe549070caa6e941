//! Text for a line of a terminal.
//! Where memory runs out, a part of what is to be added may be there.
ghost use Rattle.std.specs.Prelude.{◌≡◌, ◌<◌, ◌++◌, OnOk};
ghost use Rattle.store_reports.specs.EscapedText.{shown_for_terminal, escaped_byte, hexadecimal};

use std::alloc::AllocError;

/// Adds a text to a line, each byte as a line can have it: a backslash as two, and a control character and a byte over 126 as `\x` and its
/// code in base 16. So the text is one line, no terminal obeys it, and it can be told from the line.
pub(crate) fn push_escaped(line: &mut Vec<u8>, text: &[u8]) -> Result<(), AllocError>
    ensures { OnOk result (line.new.items ≡ line.old.items ++ shown_for_terminal text.now) }
{
    for byte in text {
        push_byte(line, *byte)?;
    }
    Ok(())
}

fn push_byte(line: &mut Vec<u8>, byte: u8) -> Result<(), AllocError>
    ensures { OnOk result (line.new.items ≡ line.old.items ++ escaped_byte byte) }
{
    if byte == b'\\' {
        line.extend_from_slice(&[b'\\', b'\\'])
    } else if byte < 32 || byte > 126 {
        line.extend_from_slice(&[b'\\', b'x', digit(byte / 16), digit(byte % 16)])
    } else {
        line.push(byte)?;
        Ok(())
    }
}

/// A digit in base 16.
pub(crate) fn digit(value: u8) -> u8
    requires { value < 16 }
    ensures { result ≡ hexadecimal value }
{
    if value < 10 {
        b'0' + value
    } else {
        b'A' + (value - 10)
    }
}
