// Text of JSON.
// Where memory runs out, a part of what is to be added may be there.
ghost use Rattle.std.specs.List.{flat_map};
ghost use Rattle.std.specs.Prelude.{◌≡◌, ◌++◌, OnOk};
ghost use Rattle.store_reports.specs.Json.{json_byte, json_number, json_string, number_member, string_member};

use crate::escaped::digit;
use crate::numbers::push_number;
use std::alloc::{AllocError, Global};

/// The first number of which many readers of JSON keep no more than 53 bits.
const WIDE: u64 = 9_007_199_254_740_992;

/// Adds a string of JSON. After an error, want of memory alone, a part may be added.
#[tactic(auto, unfolding(crate::specs::Json::json_string))]
pub(crate) fn push_json_string(text: &mut Vec<u8>, value: &[u8]) -> Result<(), AllocError>
    ensures { OnOk result (text.new.items ≡ text.old.items ++ json_string value.now) }
{
    text.push(b'"')?;
    push_json_bytes(text, value)?;
    text.push(b'"')?;
    Ok(())
}

// Adds the characters of a string.
fn push_json_bytes(text: &mut Vec<u8>, value: &[u8]) -> Result<(), AllocError>
    ensures { OnOk result (text.new.items ≡ text.old.items ++ flat_map json_byte value.now) }
{
    for byte in value {
        push_json_byte(text, *byte)?;
    }
    Ok(())
}

fn push_json_byte(text: &mut Vec<u8>, byte: u8) -> Result<(), AllocError>
    ensures { OnOk result (text.new.items ≡ text.old.items ++ json_byte byte) }
{
    if byte == b'"' || byte == b'\\' {
        text.extend_from_slice(&[b'\\', byte])
    } else if byte < 32 || byte > 126 {
        text.extend_from_slice(&[b'\\', b'u', b'0', b'0', digit(byte / 16), digit(byte % 16)])
    } else {
        text.push(byte)?;
        Ok(())
    }
}

/// Adds a number of JSON. After an error, want of memory alone, a part may be added.
#[tactic(auto, unfolding(crate::specs::Json::json_number))]
pub(crate) fn push_json_number(
    alloc: Global,
    text: &mut Vec<u8>,
    number: u64,
) -> Result<(), AllocError>
    ensures { OnOk result (text.new.items ≡ text.old.items ++ json_number number) }
{
    if number < WIDE {
        return push_number(alloc, text, number);
    }
    text.push(b'"')?;
    push_number(alloc, text, number)?;
    text.push(b'"')?;
    Ok(())
}

/// Adds a member of an object, a string. Where memory runs out, a part of it stands there.
#[tactic(auto, unfolding(crate::specs::Json::string_member))]
pub fn push_string_member(text: &mut Vec<u8>, name: &[u8], value: &[u8]) -> Result<(), AllocError>
    ensures { OnOk result (text.new.items ≡ text.old.items ++ string_member name.now value.now) }
{
    push_json_string(text, name)?;
    text.push(b':')?;
    push_json_string(text, value)
}

/// Adds a member of an object, a number. Where memory runs out, a part of it stands there.
#[tactic(auto, unfolding(crate::specs::Json::number_member))]
pub fn push_number_member(
    alloc: Global,
    text: &mut Vec<u8>,
    name: &[u8],
    number: u64,
) -> Result<(), AllocError>
    ensures { OnOk result (text.new.items ≡ text.old.items ++ number_member name.now number) }
{
    push_json_string(text, name)?;
    text.push(b':')?;
    push_json_number(alloc, text, number)
}
