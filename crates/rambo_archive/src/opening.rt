//! Opening the file of a trace.
ghost use Rattle.std.specs.Prelude.{◌≡◌, ◌⊎◌, false, IfOk, IfErr};
ghost use Rattle.rambo_archive.specs.OpenFaults.{words_of};
ghost use Rattle.rambo_archive.specs.declared.opening.OpenFault.TheVariants as fault;

use crate::disk::Disk;
use std::fs::{File, OpenOptions, TryLockError};
use std::io;
use std::io::ErrorKind;
use std::rt::Files;

/// Why the file of a trace wasn't opened.
#[derive(Clone, Copy, PartialEq, Eq, Debug)]
pub enum OpenFault {
    /// The folder that it is to stand in doesn't exist.
    Missing,
    /// It may not be read, written or created.
    Denied,
    /// It is a folder.
    Directory,
    /// Another server has locked it.
    InUse,
    /// It has bytes, and isn't to be resumed.
    NotEmpty,
    /// The file system has no locks, or gave none.
    Unlocked,
    /// The system gave another reason.
    Other,
}

impl OpenFault {
    /// The words that report it to a user.
    pub fn words(self) -> &'static str
        ensures { result.now ≡ words_of self }
    {
        match self {
            OpenFault::Missing => "fault trace: no such folder",
            OpenFault::Denied => "fault trace: permission denied",
            OpenFault::Directory => "fault trace: it is a folder",
            OpenFault::InUse => "fault trace: another server writes to it",
            OpenFault::NotEmpty => "fault trace: it isn't empty, and --resume isn't given",
            OpenFault::Unlocked => "fault trace: it can't be locked",
            OpenFault::Other => "fault trace: it can't be opened",
        }
    }
}

impl From<io::Error> for OpenFault {
    ghost use Rattle.std.specs.Prelude.{◌≡◌};
    ghost use Rattle.std.specs.IoError.{error_kind};
    ghost use Rattle.rambo_archive.specs.OpenFaults.{fault_of};

    ghost from_gives = { λ e r. r ≡ fault_of (error_kind e) };

    fn from(error: io::Error) -> OpenFault {
        match error.kind() {
            ErrorKind::NotFound | ErrorKind::NotADirectory => OpenFault::Missing,
            ErrorKind::PermissionDenied | ErrorKind::ReadOnlyFilesystem => OpenFault::Denied,
            ErrorKind::IsADirectory => OpenFault::Directory,
            _ => OpenFault::Other,
        }
    }
}

/// Opens the file of a trace, to be read from its beginning and written at its end. It is created where it is missing.
///
/// It is locked as long as it is open, so that no second server writes to it. A device isn't locked, and has no bytes of
/// its own: it is opened whether or not a trace is to be resumed. In any failure a file that was there stays as it was.
pub fn open_trace<R: Files<File = File>>(
    files: &R,
    path: &str,
    resumes: bool,
) -> Result<Disk, OpenFault>
    ensures fresh { IfOk result (λ d. d ≡ record { reads = 0; failures = 0 }) }
    ensures resumed { IfErr result (λ f. f ≡ fault.NotEmpty → resumes ≡ false) }
{
    let file = OpenOptions::new()
        .read(true)
        .append(true)
        .create(true)
        .open(files, path)?;
    if file.metadata()?.is_file() {
        lock(&file)?;
        if !resumes && 0 < file.metadata()?.len() {
            return Err(OpenFault::NotEmpty);
        }
    }
    Ok(Disk::new(file))
}

// Locks a file, as long as it is open.
fn lock(file: &File) -> Result<(), OpenFault>
    ensures { IfErr result (λ f. (f ≡ fault.InUse) ⊎ (f ≡ fault.Unlocked)) }
{
    match file.try_lock() {
        Ok(()) => Ok(()),
        Err(TryLockError::WouldBlock) => Err(OpenFault::InUse),
        Err(TryLockError::Error(_)) => Err(OpenFault::Unlocked),
    }
}
