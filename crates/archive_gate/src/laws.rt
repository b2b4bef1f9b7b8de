//! Laws of archives that pass. The functions do nothing: what they ensure holds of all bytes.

ghost use Rattle.zip_archive.specs.Reader.{told_by_locator, told_before};
ghost use Rattle.archive_gate.specs.Members.{EachMemberPasses, WhatIsReadPasses};
ghost use Rattle.archive_gate.specs.File.{NothingInArchives, NothingInPacked, NothingInArrays, NoneFails};
ghost use Rattle.archive_gate.specs.Tar.{ByHeaderPasses, NoneFailsInTar};

/// Each member that a reader by the directory finds in an archive that passes, passes: one that goes where the locator tells, as miniz.
pub fn by_locator_passes()
    ensures { EachMemberPasses told_by_locator }
{}

/// And one that looks before the locator, as zipfile.
pub fn by_place_passes()
    ensures { EachMemberPasses told_before }
{}

/// What any reader makes of a member that passes, passes, also one that compares neither size nor checksum.
pub fn read_passes()
    ensures { WhatIsReadPasses }
{}

/// Bytes that begin as an archive give nothing to a loader that takes them for a pickle.
pub fn nothing_in_archives()
    ensures { NothingInArchives }
{}

/// Nor do bytes that begin as a packed file, whatever the loader was given.
pub fn nothing_in_packed()
    ensures { NothingInPacked }
{}

/// Nor do bytes that begin as an array.
pub fn nothing_in_arrays()
    ensures { NothingInArrays }
{}

/// In an archive that passes no member fails, unless there are too many ways to read one.
pub fn none_fails()
    ensures { NoneFails }
{}

/// Each member that the reader of `tarfile` finds in a tar archive that passes, passes.
pub fn by_header_passes()
    ensures { ByHeaderPasses }
{}

/// In a tar archive that passes no member fails, unless there are too many ways to read one.
pub fn none_fails_in_tar()
    ensures { NoneFailsInTar }
{}
