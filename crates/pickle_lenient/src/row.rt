//! The row as which an operation moves, which of GET and PUT has a number of any size.

ghost use Rattle.std.specs.Prelude.{◌≡◌, false};
ghost use Rattle.pickle_lenient.specs.Row.{is_far, row_in, IsRightKind};

use crate::number::Number;
use pickle_ops::Row;
use std::marker::Model;

/// Whether a row of the machine is GET or PUT of a number of more than 64 bits: none is, which only `prove!` asks.
pub fn is_far(row: Row) -> bool
    ensures is { result ≡ is_far row }
    ensures never { result ≡ false }
{
    match row {
        Row::Get(key) => u64::MAX < key,
        Row::Put(key) => u64::MAX < key,
        _ => false,
    }
}

/// A row, by whether it has a number of more than 64 bits.
#[derive(Drop)]
pub enum RowKind {
    /// It has none.
    Near(Row),
    /// GET of such a number.
    FarGet(Number),
    /// PUT of such a number.
    FarPut(Number),
}

/// The row as which an operation moves, which of GET and PUT has a number of any size.
#[derive(Drop)]
pub struct LenientRow {
    kind: RowKind,
}

impl Model for LenientRow {
    ghost use Rattle.pickle_ops.specs.declared.row.Row.{Row};
    ghost use Rattle.pickle_lenient.specs.Row.{row_in, IsRightKind};

    ghost Value = { Row };

    ghost view = { λ r. row_in r.kind };

    ghost invariant = { λ r. IsRightKind r.kind };
}

impl LenientRow {
    /// A row of the machine.
    pub(crate) fn near(row: Row) -> LenientRow
        ensures is { result ≡ row }
        ensures near { is_far row ≡ false }
    {
        prove!(!is_far(row));
        LenientRow {
            kind: RowKind::Near(row),
        }
    }

    /// GET of this number.
    pub(crate) fn get(number: Number) -> LenientRow
        ensures { result ≡ Row.Get number }
    {
        match number.short() {
            Some(key) => LenientRow::near(Row::Get(key)),
            None => LenientRow {
                kind: RowKind::FarGet(number),
            },
        }
    }

    /// PUT of this number.
    pub(crate) fn put(number: Number) -> LenientRow
        ensures { result ≡ Row.Put number }
    {
        match number.short() {
            Some(key) => LenientRow::near(Row::Put(key)),
            None => LenientRow {
                kind: RowKind::FarPut(number),
            },
        }
    }

    /// What it is.
    pub fn into_kind(self) -> RowKind
        ensures is { row_in result ≡ self }
        ensures right { IsRightKind result }
    {
        self.kind
    }
}
