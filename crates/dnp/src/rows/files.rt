//! The files of a store, opened to be read.

use dnp_rows::{Beside, Part};
use std::io::{Read, Seek, SeekFrom};
use std::rt::Files;
use std::{fs, io};

/// The file of a store and its log.
#[derive(Drop)]
pub(crate) struct Opened<F> {
    /// The file.
    pages: F,
    /// Its log, if there is one.
    log: Option<F>,
}

impl<F: Read + Seek + Drop> Opened<F> {
    /// The file at a path and the log beside it, opened to be read. None is made.
    pub(crate) fn at<R: AllocGlobal + Files<File = F>>(rt: &R, path: &str) -> io::Result<Self> {
        let pages = fs::open(rt, path)?;
        let beside = format!(in rt.alloc(); "{path}-wal")?;
        let log = match fs::open(rt, beside.as_str()) {
            Ok(log) => Some(log),
            Err(cause) if cause.kind() == io::ErrorKind::NotFound => None,
            Err(cause) => return Err(cause),
        };
        Ok(Opened { pages, log })
    }
}

impl<F: Read + Seek> Beside for Opened<F> {
    fn read_at(&mut self, part: Part, at: u64, room: &mut [u8]) -> io::Result<usize> {
        let file = match part {
            Part::Pages => &mut self.pages,
            Part::Log => match &mut self.log {
                Some(log) => log,
                None => return Ok(0),
            },
        };
        file.seek(SeekFrom::Start(at))?;
        file.read(room)
    }
}
