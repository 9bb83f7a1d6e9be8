//! The files that a run makes for its stores, which are taken away again where it doesn't get to begin.

use crate::files::StoreFile;
use std::cell::Cell;
use std::rt::Files;
use std::{fs, io};

/// The files of two stores, as they stood before the run.
#[derive(Drop)]
pub(crate) struct Making<'a> {
    /// The path of the first, where it is to be made and wasn't there.
    first: Option<&'a str>,
    /// The path of the second, where it is.
    second: Option<&'a str>,
    /// Whether the run has begun: what it made stays.
    has_begun: Cell<bool>,
}

impl<'a> Making<'a> {
    /// The files of two stores, which were not opened yet.
    pub(crate) fn of<R: Files>(
        rt: &R,
        first: &StoreFile<'a>,
        second: &StoreFile<'a>,
    ) -> Making<'a> {
        Making {
            first: missing(rt, first),
            second: missing(rt, second),
            has_begun: Cell::new(false),
        }
    }

    /// The stores are there, and all else that the run needs.
    pub(crate) fn begin(&self) {
        self.has_begun.set(true);
    }

    /// The run is over, and its files are closed: those that it made are taken away where it hasn't begun.
    pub(crate) fn end<R: AllocGlobal + Files>(&self, rt: &R) {
        if self.has_begun.get() {
            return;
        }
        if let Some(path) = self.first {
            remove(rt, path);
        }
        if let Some(path) = self.second {
            remove(rt, path);
        }
    }
}

/// The path of a file that is to be made and isn't there.
fn missing<'a, R: Files>(rt: &R, place: &StoreFile<'a>) -> Option<&'a str> {
    if !place.new {
        return None;
    }
    match fs::open(rt, place.path) {
        Err(cause) if cause.kind() == io::ErrorKind::NotFound => Some(place.path),
        _ => None,
    }
}

/// Takes a database's file away, and its log. One that isn't there is passed over.
fn remove<R: AllocGlobal + Files>(rt: &R, path: &str) {
    let _ = fs::remove_file(rt, path);
    if let Ok(log) = format!(in rt.alloc(); "{path}-wal") {
        let _ = fs::remove_file(rt, log.as_str());
    }
}
