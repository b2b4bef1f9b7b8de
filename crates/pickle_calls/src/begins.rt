//! What bytes begin like that hold pickles inside.

ghost use Rattle.std.specs.Prelude.{◌≡◌};
ghost use Rattle.std.specs.Option.{option_map};
ghost use Rattle.pickle_io.specs.Device.{Writes};
ghost use Rattle.pickle_calls.specs.Begins.{is_like, begins_by, begins_like, begins_words, begins_line, begins_text};

use pickle_io::{Failed, Page, write_all};

/// What files begin like that hold pickles inside: at which offset, with which bytes, and what such a file is called.
pub static CONTAINERS: [(usize, &[u8], &str); 21] = [
    (0, b"PK\x03\x04", "a zip archive"),
    (0, b"PK\x05\x06", "a zip archive"),
    (0, b"PK\x07\x08", "a zip archive"),
    (0, b"\x1f\x8b", "a gzip file"),
    (0, b"\x93NUMPY", "a .npy file"),
    (0, b"\x89HDF\r\n\x1a\n", "an HDF5 file"),
    (0, b"BZh", "a bzip2 file"),
    (0, b"\xfd7zXZ\x00", "an xz file"),
    (0, b"\x28\xb5\x2f\xfd", "a zstd file"),
    (257, b"ustar", "a tar archive"),
    (0, b"SQLite format 3\x00", "an SQLite file"),
    (0, b"\x5d\x00\x00", "an lzma file"),
    (0, b"\x78\x01", "a zlib file"),
    (0, b"\x78\x5e", "a zlib file"),
    (0, b"\x78\x9c", "a zlib file"),
    (0, b"\x78\xda", "a zlib file"),
    (0, b"ZF0x", "a zlib file of joblib"),
    (12, b"\x61\x15\x06\x00", "a Berkeley DB file"),
    (0, b"\xcd\x9a\x57\x13", "a gdbm file"),
    (0, b"\xce\x9a\x57\x13", "a gdbm file"),
    (0, b"\xcf\x9a\x57\x13", "a gdbm file"),
];

/// Whether these bytes stand at this offset.
fn is_like(offset: usize, magic: &[u8], bytes: &[u8]) -> bool
    ensures { result ≡ is_like offset magic.now bytes.now }
{
    match bytes.get(offset..) {
        Some(rest) => rest.starts_with(magic),
        None => false,
    }
}

/// What the bytes begin like, by the first row that is so.
fn begins_by(rows: &[(usize, &'static [u8], &'static str)], bytes: &[u8]) -> Option<&'static str>
    ensures { option_map (λ s. s.now) result ≡ begins_by (λ r. r.0) (λ r. r.1.now) (λ r. r.2.now) rows.now bytes.now }
{
    for row in rows {
        if is_like(row.0, row.1, bytes) {
            return Some(row.2);
        }
    }
    None
}

/// What the bytes begin like, if they begin like a file that holds pickles inside.
#[tactic(auto, unfolding(crate::specs::Begins::begins_like))]
pub fn begins_like(bytes: &[u8]) -> Option<&'static str>
    ensures { option_map (λ s. s.now) result ≡ begins_like bytes.now }
{
    begins_by(&CONTAINERS, bytes)
}

/// Words of a line.
#[tactic(auto, unfolding(crate::specs::Begins::begins_words))]
fn words_of_begins() -> &'static str
    ensures { result.now ≡ begins_words }
{
    ": picklestep scan looks into it"
}

/// Writes what the bytes begin like.
fn write_begins_line<S: Page>(name: &str, page: &mut S) -> Result<(), Failed>
    ensures { Writes (S.told page.old) (S.told page.new) result (begins_line name.now) }
{
    write_all(page, b"begins like ")?;
    write_all(page, name.as_bytes())?;
    write_all(page, words_of_begins().as_bytes())?;
    write_all(page, b"\n")
}

/// Writes what the bytes begin like, if they begin like a file that holds pickles inside. `Failed` where the sink fails; a beginning of
/// the line was written then.
pub fn write_begins<S: Page>(bytes: &[u8], page: &mut S) -> Result<(), Failed>
    ensures { Writes (S.told page.old) (S.told page.new) result (begins_text bytes.now) }
{
    match begins_like(bytes) {
        Some(name) => write_begins_line(name, page),
        None => Ok(()),
    }
}
