//! What Python 3 imports for the names of Python 2.

ghost use Rattle.std.specs.Prelude.{◌≡◌, ◌&&◌, ◌==◌};
ghost use Rattle.std.specs.List.{list_any};
ghost use Rattle.std.specs.Option.{option_map};
ghost use Rattle.std.specs.Str.{bytes_eq};
ghost use Rattle.pickle_names.specs.Renamed.{import_of, by_modules, by_names, first_letters, middle_letters, may_have_row, renamed, module_renamed};

use crate::rows::{MODULES, NAMES};

/// The first letters of the modules that have a row in either table, by how many bytes they have. With the letters in the middle they tell
/// of most modules without a search that these have none.
static FIRST_LETTERS: [&str; 24] = [
    "", "", "", "Tdt", "gr", "QT", "CDadstu", "T_cdhuw", "SUcu", "cix", "FHUem", "T_r", "CS_dt",
    "C", "Bht", "Dm", "S_", "t", "S", "", "", "", "", "m",
];

/// The letters in the middle of these modules.
static MIDDLE_LETTERS: [&str; 24] = [
    "", "", "", "bit", "bp", "de", "adeklo", "bclnp", "DL_an", "ipt", "aipt", "lps", "DPSaent",
    "P", "CPein", "Po", "To", "t", "R", "", "", "", "", "s",
];

/// What is imported.
#[derive(Clone, Copy)]
pub struct NewNames<'a> {
    /// The module.
    pub from: &'a [u8],
    /// The member.
    pub name: &'a [u8],
}

/// What is imported of a module that has a row, with the name as it is.
fn by_modules<'a>(
    rows: &[(&'static str, &'static str)],
    from: &[u8],
    name: &'a [u8],
) -> Option<NewNames<'a>>
    ensures { option_map import_of result ≡ by_modules (λ r. r.0.now) (λ r. r.1.now) rows.now from.now name.now }
{
    for row in rows {
        if from == row.0.as_bytes() {
            return Some(NewNames {
                from: row.1.as_bytes(),
                name,
            });
        }
    }
    None
}

/// Whether a row is for these names. The members differ in most rows, also where the modules do not.
fn is_for(
    row: &(&'static str, &'static str, &'static str, &'static str),
    from: &[u8],
    name: &[u8],
) -> bool
    ensures { result ≡ (bytes_eq from.now row.now.0.now && bytes_eq name.now row.now.1.now) }
{
    name == row.1.as_bytes() && from == row.0.as_bytes()
}

/// What is imported for names that have a row, and where they have none, otherwise.
fn by_names<'a>(
    rows: &[(&'static str, &'static str, &'static str, &'static str)],
    otherwise: Option<NewNames<'a>>,
    from: &[u8],
    name: &[u8],
) -> Option<NewNames<'a>>
    ensures { option_map import_of result
        ≡ by_names (λ r. record { from = r.0.now; name = r.1.now }) (λ r. record { from = r.2.now; name = r.3.now }) rows.now
        (option_map import_of otherwise.entry) from.now name.now }
{
    for row in rows {
        if is_for(row, from, name) {
            return Some(NewNames {
                from: row.2.as_bytes(),
                name: row.3.as_bytes(),
            });
        }
    }
    otherwise
}

/// The first letters of the modules of this length that have a row.
fn first_letters(len: usize) -> &'static [u8]
    ensures { result.now ≡ first_letters len }
{
    if len < FIRST_LETTERS.len() {
        FIRST_LETTERS[len].as_bytes()
    } else {
        &[]
    }
}

/// The letters in the middle of them.
fn middle_letters(len: usize) -> &'static [u8]
    ensures { result.now ≡ middle_letters len }
{
    if len < MIDDLE_LETTERS.len() {
        MIDDLE_LETTERS[len].as_bytes()
    } else {
        &[]
    }
}

/// Whether a byte is one of these.
fn is_one_of(byte: u8, bytes: &[u8]) -> bool
    ensures { result ≡ list_any (λ b. b == byte) bytes.now }
{
    for other in bytes {
        if *other == byte {
            return true;
        }
    }
    false
}

/// Whether a module is as long as one that has a row, begins like one, and has the letter of one in its middle.
fn may_have_row(from: &[u8]) -> bool
    ensures { result ≡ may_have_row from.now }
{
    match from.split_first() {
        None => false,
        Some((first, _)) => {
            is_one_of(*first, first_letters(from.len()))
                && is_one_of(from[from.len() / 2], middle_letters(from.len()))
        }
    }
}

/// What is imported for names of Python 2, where that is not what they say, by a search.
#[tactic(auto, unfolding(crate::specs::Renamed::renamed))]
fn search_rows<'a>(from: &[u8], name: &'a [u8]) -> Option<NewNames<'a>>
    ensures { option_map import_of result ≡ renamed from.now name.now }
{
    by_names(&NAMES, by_modules(&MODULES, from, name), from, name)
}

/// What is imported for names of Python 2, where that is not what they say.
#[tactic(auto, using(crate::proofs::Unmapped::no_row))]
pub fn renamed<'a>(from: &[u8], name: &'a [u8]) -> Option<NewNames<'a>>
    ensures { option_map import_of result ≡ renamed from.now name.now }
{
    if may_have_row(from) {
        search_rows(from, name)
    } else {
        None
    }
}

/// The module that is imported for one of Python 2, where that is not what it says, and the member is longer than any that has a row.
#[tactic(auto, unfolding(crate::specs::Renamed::module_renamed))]
pub fn module_renamed(from: &[u8]) -> Option<&'static [u8]>
    ensures { option_map (λ f. f.now) result ≡ module_renamed from.now }
{
    match by_modules(&MODULES, from, b"") {
        Some(new) => Some(new.from),
        None => None,
    }
}
