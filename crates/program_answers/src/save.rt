//! How a document is saved so that no file is lost: into a new file, which takes the name of the old one when all of it is stored.

ghost use Rattle.std.specs.Prelude.{◌≡◌, IfOk, IfErr, IsTrue};
ghost use Rattle.program_answers.specs.Files.{is_loss};

use crate::files::{Files, stop_for};
use crate::stored::{Filled, Stored, write_to};
use pickle_doc::Document;
use pickle_io::FromRead;
use pickle_script::Stop;
use std::fs::{File, Metadata, OpenOptions};
use std::io::ErrorKind;
use std::os::unix::fs::{MetadataExt, OpenOptionsExt, fchown};
use std::path::{Path, PathBuf};
use std::{fs, io};

/// The most symbolic links that are followed one after another, which is as many as Linux follows.
const MOST_LINKS: u32 = 40;

/// The most names that are tried for a new file: each run that was killed while it saved may have left a file.
/// Nothing removes such a file: another run may be writing it.
const MOST_NAMES: u32 = 1_000;

/// A new file, in the folder of the file that it is to replace.
#[derive(Drop)]
struct NewFile {
    path: PathBuf,
    file: File,
}

impl NewFile {
    /// Makes a file in the folder of `target`. Its name does not hold that of `target`, since it would be too long where that is as
    /// long as a name can be.
    fn next_to(rt: &HostRuntime, target: &PathBuf, mode: u32) -> Result<NewFile, Stop>
        ensures { IfErr result (λ e. IsTrue (is_loss e)) }
    {
        for number in 1..=MOST_NAMES {
            let name = format!(in rt.alloc(); "picklestep-save-{number}.unfinished")?;
            let path = target.with_file_name(rt.alloc(), name.as_str())?;
            let mut options = OpenOptions::new();
            options.write(true).create_new(true).mode(mode);
            match options.open(rt, &path) {
                Ok(file) => return Ok(NewFile { path, file }),
                Err(error) if error.kind() == ErrorKind::AlreadyExists => {}
                Err(error) => return Err(stop_for(&error, Stop::Write)),
            }
        }
        Err(Stop::Write)
    }

    /// Gives the file the mode of another file, and its owner and group where the system permits it. A change of owner may clear bits of
    /// the mode, so it comes first.
    fn take_after(&self, about: &Metadata) -> Result<(), Stop>
        ensures { IfErr result (λ e. IsTrue (is_loss e)) }
    {
        let _ = fchown(&self.file, None, Some(about.gid()));
        let _ = fchown(&self.file, Some(about.uid()), None);
        match self.file.set_permissions(about.permissions()) {
            Ok(()) => Ok(()),
            Err(_) => Err(Stop::Write),
        }
    }

    /// Waits until the bytes that it was filled with are stored, and then gives the file this name. A mount point is not replaced:
    /// `Stop::Write`.
    fn move_to<'d>(
        &self,
        rt: &HostRuntime,
        target: &PathBuf,
        filled: Filled<'d, &File>,
    ) -> Result<Stored<'d>, Stop>
        ensures stored { IfOk result (λ s. s.document.now ≡ filled.entry.document.now) }
        ensures loss { IfErr result (λ e. IsTrue (is_loss e)) }
    {
        if filled.writer().sync_all().is_err() || fs::rename(rt, &self.path, target).is_err() {
            return Err(Stop::Write);
        }
        sync_folder(rt, target);
        Ok(filled.into_stored())
    }
}

/// Waits until the names in the folder of a path are stored. Where the system does not permit it nothing is said, and a
/// crash may bring the old file back.
fn sync_folder(rt: &HostRuntime, path: &PathBuf) {
    let folder = match path.parent() {
        Some(folder) if !folder.as_str().is_empty() => folder,
        _ => Path::new("."),
    };
    if let Ok(folder) = File::open(rt, folder) {
        let _ = folder.sync_all();
    }
}

/// The path to which the symbolic links of a path lead, where there need not be a file. A path that is no link leads to itself.
/// A link whose text is not UTF-8 is `Stop::Write`, since paths are text. Who exchanges one of the links during a save may
/// redirect it.
fn target_of(rt: &HostRuntime, path: &str) -> Result<PathBuf, Stop>
    ensures { IfErr result (λ e. IsTrue (is_loss e)) }
{
    let mut target = PathBuf::from_str(rt.alloc(), path)?;
    // (the last look finds that the target is no link)
    for _ in 0..=MOST_LINKS {
        match fs::read_link(rt, &target) {
            Ok(next) => {
                target.pop();
                target.push(next)?;
            }
            Err(error) => {
                return match error.kind() {
                    ErrorKind::InvalidInput | ErrorKind::NotFound => Ok(target),
                    _ => Err(stop_for(&error, Stop::Write)),
                };
            }
        }
    }
    Err(Stop::Write)
}

/// Whether this path names this file.
fn has_name(rt: &HostRuntime, about: &Metadata, target: &PathBuf) -> bool {
    match fs::symlink_metadata(rt, target) {
        Ok(found) => found.dev() == about.dev() && found.ino() == about.ino(),
        Err(_) => false,
    }
}

/// Fills a new file and gives it its name.
fn fill<'d>(
    rt: &HostRuntime,
    document: &'d Document,
    new: &NewFile,
    target: &PathBuf,
    about: Option<&Metadata>,
) -> Result<Stored<'d>, Stop>
    ensures stored { IfOk result (λ s. s.document.now ≡ document.now) }
    ensures loss { IfErr result (λ e. IsTrue (is_loss e)) }
{
    if let Some(about) = about {
        new.take_after(about)?;
    }
    let filled = write_to(rt.alloc(), document, &new.file)?;
    new.move_to(rt, target, filled)
}

/// Saves a document in a new file, which then takes the name `target`; `about` is of the file that has this name, if there is one. After a
/// failure that file is as it was, and the new one is removed.
fn replace<'d>(
    rt: &HostRuntime,
    document: &'d Document,
    target: &PathBuf,
    about: Option<&Metadata>,
) -> Result<Stored<'d>, Stop>
    ensures stored { IfOk result (λ s. s.document.now ≡ document.now) }
    ensures loss { IfErr result (λ e. IsTrue (is_loss e)) }
{
    // Nobody else may read the new file before it has the mode of the old one.
    let mode = if about.is_some() { 0o600 } else { 0o666 };
    let new = NewFile::next_to(rt, target, mode)?;
    let stored = fill(rt, document, &new, target, about);
    if stored.is_err() {
        let _ = fs::remove_file(rt, &new.path);
    }
    stored
}

/// Saves a document where `path` opened this file. A device or a pipe takes the bytes, and so does a regular file that was removed
/// while it is open, to which `/dev/stdout` may lead.
fn save_over<'d>(
    rt: &HostRuntime,
    document: &'d Document,
    path: &str,
    file: File,
) -> Result<Stored<'d>, Stop>
    ensures stored { IfOk result (λ s. s.document.now ≡ document.now) }
    ensures loss { IfErr result (λ e. IsTrue (is_loss e)) }
{
    let Ok(about) = file.metadata() else {
        return Err(Stop::Write);
    };
    if about.is_file() {
        let target = target_of(rt, path)?;
        if has_name(rt, &about, &target) {
            // Windows replaces no file that is open.
            drop(file);
            return replace(rt, document, &target, Some(&about));
        }
        if file.set_len(0).is_err() {
            return Err(Stop::Write);
        }
    }
    Ok(write_to(rt.alloc(), document, file)?.into_stored())
}

/// Saves a document to a path. `Stop::Write` where the file, or a new one next to it, cannot be written, `Stop::Memory` where there is
/// no room; a regular file is then as it was. A device or a pipe may have taken a beginning of the bytes.
fn save_document<'d>(
    rt: &HostRuntime,
    document: &'d Document,
    path: &str,
) -> Result<Stored<'d>, Stop>
    ensures stored { IfOk result (λ s. s.document.now ≡ document.now) }
    ensures loss { IfErr result (λ e. IsTrue (is_loss e)) }
{
    // The file is opened first, and left unchanged, so that one that may not be written is not replaced.
    match OpenOptions::new().write(true).open(rt, path) {
        Ok(file) => save_over(rt, document, path, file),
        Err(error) if error.kind() == ErrorKind::NotFound => {
            replace(rt, document, &target_of(rt, path)?, None)
        }
        Err(error) => Err(stop_for(&error, Stop::Write)),
    }
}

/// The files of the system. They do not report which bytes they have, nor what they have taken. Opening one may fail with any error.
#[derive(Drop)]
pub struct SystemFiles<'a> {
    /// What runs the program.
    pub rt: &'a HostRuntime,
}

/// How long the system says that a file is; 0 where it says nothing. Of a pipe or a device it says 0.
fn length_of(file: &File) -> u64 {
    match file.metadata() {
        Ok(about) => about.len(),
        Err(_) => 0,
    }
}

impl Files for SystemFiles<'_> {
    ghost use Rattle.std.specs.Prelude.{None, true};
    ghost use Rattle.program_answers.specs.Files.{is_loss};

    type Opened = FromRead<File>;

    ghost bytes_of = { λ _ _. None };

    ghost refuses = { λ _ _ _. true };

    ghost took = { λ _ _. record { taken = None; held = 0; failures = 0 } };

    ghost loses = { λ _ _ e. is_loss e };

    fn open(&self, path: &str) -> io::Result<(FromRead<File>, u64)> {
        let file = File::open(self.rt, path)?;
        let least = length_of(&file);
        Ok((FromRead::new(file), least))
    }

    fn save<'d>(&mut self, path: &str, document: &'d Document) -> Result<Stored<'d>, Stop> {
        save_document(self.rt, document, path)
    }
}
