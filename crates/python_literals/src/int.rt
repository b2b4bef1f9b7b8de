//! Whole numbers.

ghost use Rattle.std.specs.Prelude.{◌≡◌, ◌≤◌, length, OnOk};
ghost use Rattle.pickle_io.specs.Device.{Writes};
ghost use Rattle.pickle_ops.specs.Argument.{long_of};
ghost use Rattle.python_literals.specs.Numbers.{int_text};

use crate::wide::write_wide;
use byteorder::{ByteOrder, LittleEndian};
use pickle_io::{Failed, Page, write_signed};

/// Writes a whole number. `Failed` where the sink fails; a beginning of the number was written then.
pub fn write_int<P: Page>(number: i128, page: &mut P) -> Result<(), Failed>
    ensures text { Writes (P.told page.old) (P.told page.new) result (int_text number) }
    ensures room { OnOk result (60 ≤ P.room page.new) }
{
    write_signed(number, page)
}

/// The number of up to sixteen bytes in two's complement, the lowest first; 0 where there are none.
fn narrow(bytes: &[u8]) -> i128
    requires { length bytes.now ≤ 16 }
    ensures { result ≡ long_of bytes.now }
{
    if bytes.is_empty() {
        0
    } else {
        LittleEndian::read_int128(bytes, bytes.len())
    }
}

/// Writes the whole number of any count of bytes in two's complement, the lowest first; no bytes are 0. `Failed` where the sink fails; a beginning of
/// the number was written then.
pub fn write_long<P: Page>(bytes: &[u8], page: &mut P) -> Result<(), Failed>
    ensures text { Writes (P.told page.old) (P.told page.new) result (int_text (long_of bytes.now)) }
    ensures room { OnOk result (60 ≤ P.room page.new) }
{
    if bytes.len() <= 16 {
        write_int(narrow(bytes), page)
    } else {
        write_wide(bytes, page)
    }
}
