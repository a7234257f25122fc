//! Names, so written that they cannot leave their quotes.
ghost use Rattle.std.specs.Prelude.{◌<◌, ◌∷◌, [], OnOk, option_copied};
ghost use Rattle.af_report.specs.Texts.{AppendsText, escaped};
ghost use Rattle.af_report.specs.Graph.{name_line};
ghost use Rattle.af_report.specs.Quoted.{quoted};

use crate::escape::{hex_digit, is_name_byte};
use std::alloc::AllocError;

/// Appends a character of ASCII.
fn push_ascii(text: &mut String, byte: u8) -> Result<(), AllocError>
    requires { byte < 128 }
    ensures { OnOk result (AppendsText text.old text.new (byte ∷ [])) }
{
    text.push(char::from(byte))
}

/// Appends a byte as itself, or % and its two hexadecimal digits.
fn push_byte(text: &mut String, byte: u8) -> Result<(), AllocError>
    ensures { OnOk result (AppendsText text.old text.new (escaped byte)) }
{
    if is_name_byte(byte) {
        return push_ascii(text, byte);
    }
    push_ascii(text, b'%')?;
    push_ascii(text, hex_digit(byte / 16))?;
    push_ascii(text, hex_digit(byte % 16))
}

/// Appends each byte as itself, or % and its two hexadecimal digits.
fn push_quoted(text: &mut String, name: &[u8]) -> Result<(), AllocError>
    ensures { OnOk result (AppendsText text.old text.new (quoted name.now)) }
{
    for byte in name {
        push_byte(text, *byte)?;
    }
    Ok(())
}

/// Appends a name on a line of its own, behind `@`; nothing where there is none.
pub fn push_name(text: &mut String, name: Option<&[u8]>) -> Result<(), AllocError>
    ensures { OnOk result (AppendsText text.old text.new (name_line (option_copied name.entry))) }
{
    let Some(name) = name else {
        return Ok(());
    };
    text.push_str("\\n@")?;
    push_quoted(text, name)
}
