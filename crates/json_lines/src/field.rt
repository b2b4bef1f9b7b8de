//! Fields. Each writer writes one field after those before it. `Failed` where the sink fails; a beginning of the field was written then.

ghost use Rattle.std.specs.Prelude.{◌≤◌, codes, OnOk};
ghost use Rattle.json.specs.Json.{string, boolean, null};
ghost use Rattle.pickle_io.specs.Device.{Writes};
ghost use Rattle.pickle_io.specs.Text.{◌⧺◌, hexadecimal};
ghost use Rattle.json_lines.specs.Json.{value_text};
ghost use Rattle.json_lines.specs.Line.{field, whole, integer, hex, bytes_field, fields_text, name_text};

use crate::string::write_string;
use crate::value::{push_bool, write_integer, write_whole};
use pickle_io::{Failed, Page, write_hex};

/// Writes what is before the value of a field.
#[tactic(auto, using(pickle_io::proofs::Devices::page_steps), unfolding(crate::specs::Line::name_text))]
pub fn write_name<P: Page>(name: &str, page: &mut P) -> Result<(), Failed>
    ensures text { Writes (P.told page.old) (P.told page.new) result (name_text name.now) }
    ensures room { OnOk result (59 ≤ P.room page.new) }
{
    page.make_room()?;
    page.push(b',');
    write_string(name, page)?;
    page.push(b':');
    Ok(())
}

/// Writes a field that is a whole number, as text where it is 2^53 or more.
pub fn write_number_field<P: Page>(name: &str, number: u64, page: &mut P) -> Result<(), Failed>
    ensures { Writes (P.told page.old) (P.told page.new) result (fields_text (field name.now (whole number))) }
{
    write_name(name, page)?;
    write_whole(number, page)
}

/// Writes a field that is a whole number, which may be below 0, as text where it is 2^53 or more without its sign.
pub fn write_integer_field<P: Page>(name: &str, number: i128, page: &mut P) -> Result<(), Failed>
    ensures { Writes (P.told page.old) (P.told page.new) result (fields_text (field name.now (integer number))) }
{
    write_name(name, page)?;
    write_integer(number, page)
}

/// Writes a field that is a text.
#[tactic(auto, using(crate::proofs::Lines::field_steps))]
pub fn write_text_field<P: Page>(name: &str, text: &str, page: &mut P) -> Result<(), Failed>
    ensures { Writes (P.told page.old) (P.told page.new) result (fields_text (field name.now (string text.now))) }
{
    write_name(name, page)?;
    write_string(text, page)
}

/// Writes bytes in hexadecimal between quotation marks.
#[tactic(auto, using(pickle_io::proofs::Devices::page_steps))]
fn write_quoted_hex<P: Page>(bytes: &[u8], page: &mut P) -> Result<(), Failed>
    ensures { Writes (P.told page.old) (P.told page.new) result (codes "\"" ⧺ hexadecimal bytes.now ⧺ codes "\"") }
{
    page.make_room()?;
    page.push(b'"');
    write_hex(bytes, page)?;
    page.push(b'"');
    Ok(())
}

/// Writes bytes in hexadecimal as a string, all of whose characters stand for themselves.
fn write_hex_string<P: Page>(bytes: &[u8], page: &mut P) -> Result<(), Failed>
    ensures { Writes (P.told page.old) (P.told page.new) result (value_text (hex bytes.now)) }
{
    write_quoted_hex(bytes, page)
}

/// Writes a field that is bytes in hexadecimal, two lower case digits each.
pub fn write_hex_field<P: Page>(name: &str, bytes: &[u8], page: &mut P) -> Result<(), Failed>
    ensures { Writes (P.told page.old) (P.told page.new) result (fields_text (field name.now (hex bytes.now))) }
{
    write_name(name, page)?;
    write_hex_string(bytes, page)
}

/// Writes bytes as a text where they are UTF-8, else in hexadecimal under another name.
#[tactic(auto, using(crate::proofs::Lines::bytes_steps))]
pub fn write_bytes_field<P: Page>(
    name: &str,
    hex_name: &str,
    bytes: &[u8],
    page: &mut P,
) -> Result<(), Failed>
    ensures { Writes (P.told page.old) (P.told page.new) result (fields_text (bytes_field name.now hex_name.now bytes.now)) }
{
    match std::str::from_utf8(bytes) {
        Ok(text) => write_text_field(name, text, page),
        Err(_) => write_hex_field(hex_name, bytes, page),
    }
}

/// Writes a field that is a truth value.
#[tactic(auto, using(crate::proofs::Lines::field_steps))]
pub fn write_bool_field<P: Page>(name: &str, value: bool, page: &mut P) -> Result<(), Failed>
    ensures { Writes (P.told page.old) (P.told page.new) result (fields_text (field name.now (boolean value))) }
{
    write_name(name, page)?;
    push_bool(value, page);
    Ok(())
}

/// Writes a field that is null.
#[tactic(auto, using(crate::proofs::Lines::field_steps))]
pub fn write_null_field<P: Page>(name: &str, page: &mut P) -> Result<(), Failed>
    ensures { Writes (P.told page.old) (P.told page.new) result (fields_text (field name.now null)) }
{
    write_name(name, page)?;
    page.push_text(b"null");
    Ok(())
}
