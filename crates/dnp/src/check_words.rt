//! The check word that is wrong in what a person gave, and the one that would be right.

use dnp_captures::{Item, What, WrongWord, place_octets, wrong_word};
use dnp_decode::Line;
use dnp_linkframe::{FrameFault, read_frame};
use std::alloc::{AllocError, Global};

/// The wrong check word of the frame that octets are, where that is why they are none.
pub(crate) fn word_of_frame(octets: &[u8]) -> Option<WrongWord> {
    match read_frame(octets) {
        Err(fault @ (FrameFault::HeaderCheck | FrameFault::BlockCheck(_))) => {
            wrong_word(octets, fault)
        }
        _ => None,
    }
}

/// By which fault a check word is wrong, where the line says that one is.
fn fault_of(item: &Item) -> Option<FrameFault> {
    match item.what {
        What::Line(Line::Noise { start: true, .. }) => Some(FrameFault::HeaderCheck),
        What::Line(
            Line::FrameRefused {
                fault: fault @ FrameFault::BlockCheck(_),
                ..
            },
        ) => Some(fault),
        _ => None,
    }
}

/// The first line of a stream that says that a check word is wrong, by its number from 0, and that word.
pub(crate) fn first_wrong(
    alloc: Global,
    octets: &[u8],
) -> Result<Option<(usize, WrongWord)>, AllocError> {
    for (number, item) in place_octets(alloc, octets)?.iter().enumerate() {
        if let Some(fault) = fault_of(item)
            && let Ok(place) = usize::try_from(item.at)
            && let Some(frame) = octets.get(place..)
            && let Some(wrong) = wrong_word(frame, fault)
        {
            return Ok(Some((number, wrong)));
        }
    }
    Ok(None)
}
