//! The files of a program's two stores, on the command line.

use clap::ArgMatches;
use dnp_files::StoreFile;
use dnp_lines::Wrong;

/// The files that the words name: that of the events, whose option is called as their store, and that of the book of controls. Where
/// both are one file, that is printed.
pub(crate) fn files_given<'a, R: Eprint>(
    rt: &R,
    given: &ArgMatches<'a>,
    events: &'static str,
) -> Option<(StoreFile<'a>, StoreFile<'a>)> {
    let new = given.get_flag("new");
    let path = given.get_str(events).unwrap_or("");
    let controls = given.get_str("controls").unwrap_or("");
    if path == controls {
        let wrong = Wrong::SameFile(path, events);
        let _ = eprintln!(rt; "{wrong}");
        return None;
    }
    Some((
        StoreFile {
            path,
            store: events,
            new,
        },
        StoreFile {
            path: controls,
            store: "book of controls",
            new,
        },
    ))
}
