//! Laws of the gate over files. The functions do nothing: what they ensure holds of all bytes.

ghost use Rattle.archive_script.specs.GateText.{ZeroWhereFilePasses, ZeroMeansPassing};

/// By the entries of a list the status is 0 only where a file passes, and where it passes the status is 0, unless there are too many ways to read a
/// member of an archive.
pub fn zero_where_file_passes()
    ensures { ZeroWhereFilePasses }
{}

/// Where the status is 0, the list is one, and the file passes by its entries.
pub fn zero_means_passing()
    ensures { ZeroMeansPassing }
{}
