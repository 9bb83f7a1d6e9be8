//! The files of a database on a simulated disk, and what is left of them as a process ends.

use crate::disk::{Failing, Order};
use crate::restarts::Restart;
use sqlite::{Alter, Connection, FileStore, Files, Options};
use sqlite_disk::{Crash, Disk, Memory};
use std::alloc::{AllocError, Global};

/// How many pages the log has at most before they are copied into the database file. A sync copies a file, so that the log has to
/// stay short.
const CHECKPOINT_FRAMES: usize = 64;

/// A file of a simulated disk.
pub type File = Failing<Memory>;

/// The octets of a log and of its database file.
#[derive(Drop)]
pub struct Image {
    /// The log.
    log: Vec<u8>,
    /// The database file.
    db: Vec<u8>,
}

impl Image {
    /// Makes those of files that are new.
    pub fn empty(alloc: Global) -> Image {
        Image {
            log: Vec::new(alloc),
            db: Vec::new(alloc),
        }
    }
}

/// What a database on a simulated disk is stored in. Behind a trait, so that what opens databases over it is proved for stores of any
/// type, and only this file's functions prove how the parts of a file's store are dropped.
pub trait DiskStore: Alter + Drop + Sized {
    /// Connects to the database over files with these octets. Where it does not open, gives what the files hold then, if there is
    /// memory for it.
    fn opened(
        alloc: Global,
        image: &Image,
        restart: Restart,
    ) -> Result<Connection<Self>, Option<Image>>;

    /// Gives what the files hold as the process ends, if there is memory for it.
    fn left(self, alloc: Global, restart: Restart) -> Option<Image>;
}

/// A file of a simulated disk, as a connection needs it. Behind a trait, so that a connection over such files is proved for files of any
/// type.
pub trait Kept: Crash + Drop + Sized {
    /// Makes one with these octets, all of them synced, on a disk that fails by this order.
    fn holding(alloc: Global, octets: &[u8], order: Order) -> Option<Self>;

    /// Shows its octets.
    fn octets(&self) -> &[u8];
}

impl Kept for File {
    fn holding(alloc: Global, octets: &[u8], order: Order) -> Option<File> {
        let mut file = Memory::new(alloc);
        if file.may_be_used() && file.write_at(0, octets).is_ok() && file.sync().is_ok() {
            Some(Failing::new(file, order))
        } else {
            None
        }
    }

    fn octets(&self) -> &[u8] {
        self.inner.bytes()
    }
}

/// Makes two files with these octets.
fn files_of<D: Kept>(alloc: Global, image: &Image, order: Order) -> Option<Files<D>> {
    let log = D::holding(alloc, &image.log, order)?;
    let db = D::holding(alloc, &image.db, order)?;
    Some(Files { log, db })
}

/// Gives the octets of two files.
fn octets_of<D: Kept>(alloc: Global, files: &Files<D>) -> Result<Image, AllocError> {
    Ok(Image {
        log: Vec::from_slice(alloc, files.log.octets())?,
        db: Vec::from_slice(alloc, files.db.octets())?,
    })
}

/// Gives what two files hold, after they lost what they lose.
fn held_by<D: Kept>(alloc: Global, mut files: Files<D>, restart: Restart) -> Option<Image> {
    if restart.loses_log {
        files.log.crash();
    }
    if restart.loses_db {
        files.db.crash();
    }
    octets_of(alloc, &files).ok()
}

impl<D: Kept> DiskStore for FileStore<D> {
    fn opened(
        alloc: Global,
        image: &Image,
        restart: Restart,
    ) -> Result<Connection<Self>, Option<Image>> {
        let Some(files) = files_of(alloc, image, restart.order) else {
            return Err(None);
        };
        if !files.may_be_used() {
            return Err(None);
        }
        let options = Options {
            checkpoint_frames: CHECKPOINT_FRAMES,
            ..Options::new(restart.seed)
        };
        match Connection::open_files(alloc, files, options) {
            Ok(conn) => Ok(conn),
            Err((_, files)) => Err(held_by(alloc, files.into_files(), restart)),
        }
    }

    fn left(self, alloc: Global, restart: Restart) -> Option<Image> {
        held_by(alloc, self.close(), restart)
    }
}
