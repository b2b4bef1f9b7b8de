//! A text in memory of the caller.

ghost use Rattle.std.specs.Prelude.{◌≡◌, ◌≢◌, ◌≤◌, ◌↔◌};
ghost use Rattle.pickle_script.specs.declared.stop.Stop.TheVariants as stops;
ghost use Rattle.library_answers.specs.Answer.{Puts};

use pickle_script::Stop;

/// The whole text is where the caller wants it, or what was asked for is done.
pub const DONE: u8 = 0;
/// Memory ran out. A session is as it was.
pub const OUT_OF_MEMORY: u8 = 1;
/// The input has more than 1,073,741,824 bytes.
const TOO_LARGE: u8 = 2;
/// The text has no room in what was offered for it.
const NO_ROOM: u8 = 3;
/// The options are not those of the function, or do not go together, or a hole begins before the end of the one before it, or ends behind
/// 2^62; or a session was to be asked where none is open, or opened where one is.
pub const NO_TASK: u8 = 4;
/// A line was obeyed, and memory ran out for its text.
pub const LOST: u8 = 5;

/// The room for what a text is gathered in on its way. It is cleared first: where the input is small, more would take a good part of the time.
pub const ROOM: usize = 8_192;

/// How long a text is, and its status, which is that of the program: 1 where an opcode or a line is refused, the bytes have a fault, the lines
/// of `calls` end in `unsure:`, `kept:` or `warning:`, a pickle is not in the form or does not pass a list, a loader may reach something, or a
/// hole ends behind the last byte, a line is none of the assembler, or two inputs do not make the same objects; 2 where a line of a list is no entry, else 0.
#[repr(C)]
#[derive(Clone, Copy)]
pub struct Written {
    /// In bytes.
    pub size: usize,
    /// 0, 1 or 2.
    pub status: u8,
}

/// The number that a caller gets for a stop. (A sink in memory fails only where memory runs out, and nothing is read.)
pub fn number_of(stop: Stop) -> u8
    ensures bounded { result ≤ 2 }
    ensures some { result ≢ 0 }
    ensures large { (result ≡ 2) ↔ (stop ≡ stops.TooLarge) }
{
    match stop {
        Stop::TooLarge => TOO_LARGE,
        Stop::Memory => OUT_OF_MEMORY,
        Stop::Write => OUT_OF_MEMORY,
        Stop::Read => OUT_OF_MEMORY,
    }
}

/// Puts a text at the start of `out`, if it has room there.
pub fn put(text: &[u8], status: u8, out: &mut [u8], written: &mut Written) -> u8
    ensures { Puts text.now status out.old out.new written.new result }
{
    let size = text.len();
    *written = Written { size, status };
    if size > out.len() {
        return NO_ROOM;
    }
    out[..size].copy_from_slice(text);
    DONE
}
