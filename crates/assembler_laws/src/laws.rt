//! What a listing is assembled to. The functions do nothing: what they ensure is the law.

ghost use Rattle.assembler_laws.specs.ReadBack.{ItemLineReadBack, WholeLineReadBack, ListingReadBack, GapsAreRefused, WholeListingReadBack, WholeGapsAreRefused};

/// The line of an opcode in a listing says the same opcode with the same argument, at each offset, with each note, and whatever marks are open:
/// if its argument is the one that its text stands for.
pub fn item_line_read_back()
    ensures { ItemLineReadBack }
{}

/// In a whole listing it does so whatever its argument is.
pub fn whole_line_read_back()
    ensures { WholeLineReadBack }
{}

/// A listing of all items of a file, behind which no bytes are left, is assembled to the bytes of the file, if each argument is the one that
/// its text stands for.
pub fn listing_read_back()
    ensures { ListingReadBack }
{}

/// Any other listing is refused, and the line that is named says why: bytes are kept behind STOP, or cannot be read, or an item is refused.
pub fn gaps_are_refused()
    ensures { GapsAreRefused }
{}

/// A whole listing of all items of a file, behind which no bytes are left, is assembled to the bytes of the file.
pub fn whole_listing_read_back()
    ensures { WholeListingReadBack }
{}

/// Any other whole listing is refused, and the line that is named says why.
pub fn whole_gaps_are_refused()
    ensures { WholeGapsAreRefused }
{}
