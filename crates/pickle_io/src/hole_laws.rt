//! Laws of the definitions of holes. The functions do nothing: what they ensure holds of all bytes.

ghost use Rattle.pickle_io.specs.HoleLaws.{BytesKeepTheirOffsets, NothingLeftOut};

/// Each byte that is left stands in the file at the offset that is shown.
pub fn bytes_keep_their_offsets()
    ensures { BytesKeepTheirOffsets }
{}

/// Without holes all bytes are left, where they are.
pub fn nothing_left_out()
    ensures { NothingLeftOut }
{}
