//! What files begin as.

ghost use Rattle.std.specs.Prelude.{◌≡◌};
ghost use Rattle.archive_gate.specs.Kind.{kind_but_tar, kind_of};

use crate::begins::begins_as_archive;
use npy_form::begins_as_array;
use packed_stream::{Packing, may_be_zlib, packing_of};
use tar_archive::begins_as_tar;

/// What a file is looked at as.
#[derive(Clone, Copy)]
pub enum Kind {
    /// A tar archive.
    Tar,
    /// A zip archive.
    Archive,
    /// One file that is packed.
    Packed(Packing),
    /// An array of numpy.
    Array,
    /// A pickle.
    Pickle,
}

/// What bytes begin as: as a tar archive, whatever their first bytes are, if a reader takes their first block for the header of one.
pub fn kind_of(bytes: &[u8]) -> Kind
    ensures { result ≡ kind_of bytes.now }
{
    if begins_as_tar(bytes) {
        Kind::Tar
    } else {
        kind_but_tar(bytes)
    }
}

/// What bytes begin as, of which no reader takes the first block for that of a tar archive.
pub(crate) fn kind_but_tar(bytes: &[u8]) -> Kind
    ensures { result ≡ kind_but_tar bytes.now }
{
    if begins_as_archive(bytes) {
        return Kind::Archive;
    }
    if let Some(packing) = packing_of(bytes) {
        return Kind::Packed(packing);
    }
    if begins_as_array(bytes) {
        return Kind::Array;
    }
    // The stream is refused then, since its header is not the one that usual writers write.
    if may_be_zlib(bytes) {
        Kind::Packed(Packing::Zlib)
    } else {
        Kind::Pickle
    }
}
