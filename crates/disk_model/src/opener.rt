// How a disk gets its file.
use std::fs::{File, OpenOptions, TryLockError};
use std::io::{Error, ErrorKind};
use std::os::unix::fs::OpenOptionsExt;
use std::rt::HostRuntime;
use std::{fs, io};

/// An open file, and its folder where the file's name in it isn't yet made sure of.
#[derive(Drop)]
pub struct Opened<F> {
    pub file: F,
    pub folder: Option<F>,
}

/// Opens a file for a disk.
pub trait Opener {
    type File;

    fn open(&self) -> io::Result<Opened<Self::File>>;
}

/// A file of the system that one process has for itself: it holds the exclusive lock on the file until it ends. A file
/// that isn't there is made, for its owner alone to read and write; one that is there keeps its mode. What is no plain
/// file is refused, and so is a link that leads nowhere.
#[derive(Drop)]
pub struct LockedFile<'a> {
    pub rt: HostRuntime,
    pub folder: &'a str,
    pub path: &'a str,
}

// How often the file is sought and made, where others make and remove it meanwhile.
const TRIES: usize = 4;

const OWNER_ALONE: u32 = 0o600;

fn open_or_make(rt: &HostRuntime, path: &str) -> io::Result<File> {
    let mut plain = OpenOptions::new();
    plain.read(true).write(true);
    let mut making = OpenOptions::new();
    making
        .read(true)
        .write(true)
        .create_new(true)
        .mode(OWNER_ALONE);
    for _ in 0..TRIES {
        match plain.open(rt, path) {
            Err(error) if error.kind() == ErrorKind::NotFound => {}
            answer => return answer,
        }
        match making.open(rt, path) {
            Err(error) if error.kind() == ErrorKind::AlreadyExists => {}
            answer => return answer,
        }
    }
    Err(Error::new(ErrorKind::NotFound, "a link that leads nowhere"))
}

fn lock(file: &File) -> io::Result<()> {
    match file.try_lock() {
        Ok(()) => Ok(()),
        Err(TryLockError::WouldBlock) => Err(Error::new(
            ErrorKind::WouldBlock,
            "in use by another run",
        )),
        Err(TryLockError::Error(error)) => Err(error),
    }
}

impl<'a> Opener for LockedFile<'a> {
    type File = File;

    fn open(&self) -> io::Result<Opened<File>> {
        let file = open_or_make(&self.rt, self.path)?;
        if !file.metadata()?.is_file() {
            return Err(Error::new(ErrorKind::InvalidInput, "not a plain file"));
        }
        lock(&file)?;
        let folder = File::open(&self.rt, self.folder)?;
        Ok(Opened {
            file,
            folder: Some(folder),
        })
    }
}
