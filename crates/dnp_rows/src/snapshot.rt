//! A database as it stood at a moment: the pages that its log has, and where the others are.

ghost use Rattle.std.specs.Prelude.{◌<◌};

use crate::beside::{Beside, Part, fill};
use crate::fault::ReadFault;
use sqlite_disk::{Disk, Memory};
use sqlite_wal::{Error, PageSize, probe_frames};
use std::alloc::Global;

/// How many octets the header of a log has, and that of each frame in it (SQLite's database file format: the WAL file).
const LOG_HEADER: usize = 32;

const FRAME_HEADER: usize = 24;

/// How many octets are read at once.
const CHUNK: usize = 65_536;

/// How many octets of the file say what it is (SQLite's database file format: the database header).
const FILE_HEADER: usize = 100;

/// What a database begins with, after its first octet, which is written last.
const MAGIC: &[u8] = b"QLite format 3\0";

/// A database, by its log as it was read: a page stands in the last frame that has it, or else in the file.
#[derive(Drop)]
pub(crate) struct Snapshot {
    /// What the file begins with.
    head: Vec<u8>,
    /// The octets of the log.
    log: Vec<u8>,
    /// The page of each frame up to the last commit.
    frames: Vec<u32>,
    /// How many octets a page has.
    page_octets: usize,
    /// How many of them hold something.
    usable: usize,
}

/// The whole log.
fn read_log<B: Beside>(alloc: Global, beside: &mut B) -> Result<Vec<u8>, ReadFault> {
    let mut log = Vec::new(alloc);
    let mut room = vec![in alloc; 0; CHUNK]?;
    for _ in 0..u64::MAX {
        let at = log.len() as u64;
        match fill(beside, Part::Log, at, &mut room) {
            Ok(0) => break,
            Ok(count) => log.extend_from_slice(&room[..count])?,
            Err(cause) => return Err(ReadFault::Unreadable(cause)),
        }
    }
    Ok(log)
}

/// The number of two octets at a place, the high one first; 0 where they don't both stand there.
fn number_at(octets: &[u8], at: usize) -> usize
    requires { at < 32 }
{
    let high = octets.get(at).copied().unwrap_or(0);
    let low = octets.get(at + 1).copied().unwrap_or(0);
    usize::from(high) * 256 + usize::from(low)
}

/// How many octets a page has, by what the file begins with, or else by the log.
fn page_size(head: &[u8], log: &[u8]) -> Result<PageSize, ReadFault> {
    if head.is_empty() && log.len() < LOG_HEADER {
        return Err(ReadFault::NotMade);
    }
    // (1 says 65536, of which the log's four octets have the high one)
    let said = if head.len() >= FILE_HEADER {
        number_at(head, 16)
    } else {
        number_at(log, 10).max(number_at(log, 8))
    };
    let octets = if said == 1 { 65_536 } else { said };
    PageSize::new(octets).ok_or(ReadFault::NoDatabase)
}

/// The page of each frame of a log up to its last commit.
fn frames_in(alloc: Global, log: &[u8], size: PageSize) -> Result<Vec<u32>, ReadFault> {
    let mut disk = Memory::new(alloc);
    if disk.write_at(0, log).is_err() {
        return Err(ReadFault::Memory);
    }
    match probe_frames(alloc, &mut disk, size) {
        Ok(frames) => Ok(frames),
        Err(Error::OutOfMemory) => Err(ReadFault::Memory),
        Err(_) => Err(ReadFault::OtherForm),
    }
}

/// What the file begins with, as much of it as says what it is.
fn read_head<B: Beside>(alloc: Global, beside: &mut B) -> Result<Vec<u8>, ReadFault> {
    let mut head = vec![in alloc; 0; FILE_HEADER]?;
    match fill(beside, Part::Pages, 0, &mut head) {
        Ok(count) => {
            head.truncate(count);
            Ok(head)
        }
        Err(cause) => Err(ReadFault::Unreadable(cause)),
    }
}

/// How many octets of a page hold something, by the first page; why it is no database's, where it is none.
fn usable_in(first: &[u8], page_octets: usize) -> Result<usize, ReadFault> {
    match first {
        [b'S', rest @ ..] if rest.starts_with(MAGIC) => {}
        [0, rest @ ..] if rest.starts_with(MAGIC) => return Err(ReadFault::NotMade),
        _ => return Err(ReadFault::NoDatabase),
    }
    let kept = usize::from(first.get(20).copied().unwrap_or(0));
    Ok(page_octets.saturating_sub(kept))
}

impl Snapshot {
    /// The database as it stands.
    pub(crate) fn read<B: Beside>(alloc: Global, beside: &mut B) -> Result<Snapshot, ReadFault> {
        let log = read_log(alloc, beside)?;
        let head = read_head(alloc, beside)?;
        let size = page_size(&head, &log)?;
        let frames = frames_in(alloc, &log, size)?;
        let page_octets = size.bytes();
        let mut snapshot = Snapshot {
            head,
            log,
            frames,
            page_octets,
            usable: page_octets,
        };
        let first = match snapshot.page(alloc, beside, 1) {
            Ok(first) => first,
            Err(ReadFault::OtherForm) => return Err(ReadFault::NoDatabase),
            Err(fault) => return Err(fault),
        };
        snapshot.usable = usable_in(&first, page_octets)?;
        Ok(snapshot)
    }

    /// Where the octets of the last frame begin that has this page, if one has it.
    fn frame_of(&self, number: u32) -> Option<usize> {
        let place = self.frames.iter().rposition(|page| *page == number)?;
        let before = place.checked_mul(FRAME_HEADER.checked_add(self.page_octets)?)?;
        before.checked_add(LOG_HEADER + FRAME_HEADER)
    }

    /// The part of a page that holds something.
    pub(crate) fn page<B: Beside>(
        &self,
        alloc: Global,
        beside: &mut B,
        number: u32,
    ) -> Result<Vec<u8>, ReadFault> {
        let mut page = vec![in alloc; 0; self.page_octets]?;
        if let Some(start) = self.frame_of(number) {
            let kept = self.log.get(start..start.saturating_add(self.page_octets));
            let Some(kept) = kept else {
                return Err(ReadFault::OtherForm);
            };
            page.clear();
            page.extend_from_slice(kept)?;
        } else {
            let at = u64::from(number)
                .saturating_sub(1)
                .saturating_mul(self.page_octets as u64);
            match fill(beside, Part::Pages, at, &mut page) {
                Ok(count) if count == self.page_octets && number > 0 => {}
                Ok(_) => return Err(ReadFault::OtherForm),
                Err(cause) => return Err(ReadFault::Unreadable(cause)),
            }
        }
        page.truncate(self.usable);
        Ok(page)
    }

    /// Whether the log still has these octets from a place on, of so many.
    fn has_still<B: Beside>(
        &self,
        alloc: Global,
        beside: &mut B,
        at: usize,
        count: usize,
    ) -> Result<bool, ReadFault> {
        let mut room = vec![in alloc; 0; count]?;
        let came = match fill(beside, Part::Log, at as u64, &mut room) {
            Ok(came) => came,
            Err(cause) => return Err(ReadFault::Unreadable(cause)),
        };
        let first = at.min(self.log.len());
        let after = at.saturating_add(count).min(self.log.len());
        match self.log.get(first..after) {
            Some(kept) => Ok(kept == &room[..came]),
            None => Ok(false),
        }
    }

    /// Whether nothing was committed since, and the file is no other: a commit makes a frame of what stands after the last one,
    /// or begins a new log, and before that no page of the file is written but with what the log has of it.
    pub(crate) fn stands<B: Beside>(
        &self,
        alloc: Global,
        beside: &mut B,
    ) -> Result<bool, ReadFault> {
        let frame = self.page_octets.saturating_add(FRAME_HEADER);
        let end = self
            .frames
            .len()
            .saturating_mul(frame)
            .saturating_add(LOG_HEADER);
        let head = read_head(alloc, beside)?;
        Ok(
            head.as_slice() == self.head.as_slice()
                && self.has_still(alloc, beside, 0, LOG_HEADER)?
                && self.has_still(alloc, beside, end, frame)?,
        )
    }
}
