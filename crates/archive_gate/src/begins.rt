//! How the bytes of archives begin, and at which first bytes each loader raises.

ghost use Rattle.std.specs.Prelude.{◌≡◌};
ghost use Rattle.archive_gate.specs.Kind.{begins_as_archive, holds_members};
ghost use Rattle.archive_gate.specs.Members.{ends_ascii, line_is_ascii, without_last, raises_first};
ghost use Rattle.archive_gate.specs.Itself.{is_taking_letter, takes_first};

use tar_archive::begins_as_tar;

/// What is before a member.
const MEMBER: &[u8] = b"PK\x03\x04";

/// What is at the end, and so at the front where there are no members.
const END: &[u8] = b"PK\x05\x06";

/// Whether bytes begin as a zip archive does: with the header of a member, or with the end of an archive without members.
pub fn begins_as_archive(bytes: &[u8]) -> bool
    ensures { result ≡ begins_as_archive bytes.now }
{
    bytes.starts_with(MEMBER) || bytes.starts_with(END)
}

/// Whether bytes begin as a zip archive or a tar archive does.
pub fn holds_members(bytes: &[u8]) -> bool
    ensures { result ≡ holds_members bytes.now }
{
    begins_as_archive(bytes) || begins_as_tar(bytes)
}

/// Whether a line of ASCII ends here: the byte is a newline, or it is not ASCII.
fn ends_ascii(byte: u8) -> bool
    ensures { result ≡ ends_ascii byte }
{
    byte == 10 || 128 <= byte
}

/// Whether a line, or what is left of one, has no byte but ASCII.
#[tactic(auto, unfolding(crate::specs::Members::line_is_ascii))]
fn line_is_ascii(bytes: &[u8]) -> bool
    ensures { result ≡ line_is_ascii bytes.now }
{
    for byte in bytes {
        if ends_ascii(*byte) {
            return *byte == 10;
        }
    }
    true
}

/// The bytes but the last, if there are any.
fn without_last(bytes: &[u8]) -> &[u8]
    ensures { result.now ≡ without_last bytes.now }
{
    bytes
        .get(..bytes.len().saturating_sub(1))
        .unwrap_or_default()
}

/// Whether each loader raises at the first opcode: it is BINPERSID, which takes an object where there is none, or PERSID with a line that is not
/// ASCII. (Of a line that the bytes end the unpickler in Python drops the last byte, so that one is not asked for.)
pub(crate) fn raises_first(bytes: &[u8]) -> bool
    ensures { result ≡ raises_first bytes.now }
{
    if bytes.starts_with(b"Q") {
        return true;
    }
    bytes.starts_with(b"P") && !line_is_ascii(without_last(bytes.get(1..).unwrap_or_default()))
}

/// Whether the letter is an opcode that takes an object, a mark or an entry of the memo.
fn is_taking_letter(byte: u8) -> bool
    ensures { result ≡ is_taking_letter byte }
{
    let front = (97 <= byte && byte <= 98) || (100 <= byte && byte <= 101);
    let middle = (103 <= byte && byte <= 104) || (byte == 106 || byte == 108);
    front || (middle || (111 <= byte && byte <= 117))
}

/// Whether each loader raises at the first opcode, since it takes something where there is nothing: an object, a mark, or an entry of the memo.
pub(crate) fn takes_first(bytes: &[u8]) -> bool
    ensures { result ≡ takes_first bytes.now }
{
    match bytes.first() {
        Some(byte) => (*byte == 46 || (48 <= *byte && *byte <= 50)) || is_taking_letter(*byte),
        None => false,
    }
}
