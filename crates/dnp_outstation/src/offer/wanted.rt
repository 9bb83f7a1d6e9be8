//! What a READ asks for.

ghost use Rattle.std.specs.Prelude.{◌≡◌, ◌≤◌, ◌-◌, map};
ghost use Rattle.dnp_objects.specs.Lanes.{lane_number, kind_number};
ghost use Rattle.dnp_appfragment.specs.Seen.{head};
ghost use Rattle.dnp_outstation.specs.declared.offer.place.RowPart.{RowPart as RowsPart};
ghost use Rattle.dnp_outstation.specs.Forms.{leaves_open};
ghost use Rattle.dnp_outstation.specs.Items.{Source, class_lanes, kind_lanes, limit_of, part_of};
ghost use Rattle.dnp_outstation.specs.steps.Filling.{part_by};

use crate::offer::place::{RowPart, Wanted};
use dnp_appfragment::{Header, Range};
use dnp_eventbuf::Lane;
use dnp_objects::Kind;

/// How many rows a header wants at most, if it has a limit.
fn limit(range: Range) -> Option<usize>
    ensures { result ≡ limit_of range }
{
    match range {
        Range::All => None,
        Range::Span { .. } => None,
        Range::Count { n, .. } => Some(usize::from(n)),
        Range::Indexed { n, .. } => Some(usize::from(n)),
    }
}

/// The lanes of a class, 1 to 3.
pub(crate) fn of_class(class: u8) -> [Lane; 3]
    requires one { 1 ≤ class }
    requires three { class ≤ 3 }
    ensures { map lane_number result ≡ class_lanes (class - 1) }
{
    [
        Lane {
            class,
            kind: Kind::Binary,
        },
        Lane {
            class,
            kind: Kind::Counter,
        },
        Lane {
            class,
            kind: Kind::Analog,
        },
    ]
}

/// The lanes of a kind, by class.
fn of_kind(kind: Kind) -> [Lane; 3]
    ensures { map lane_number result ≡ kind_lanes (kind_number kind) }
{
    [
        Lane { class: 1, kind },
        Lane { class: 2, kind },
        Lane { class: 3, kind },
    ]
}

/// What a header asks for.
pub(crate) fn wanted(header: &Header<'_>) -> Wanted
    ensures part { (s : Source) → part_of s (head header.now) ≡ part_by s result }
    ensures marks { (part : RowsPart) → result ≡ Wanted.Rows part → part.is_open ≡ leaves_open (head header.now) }
{
    let most = limit(header.range);
    let is_open = header.group == 60 || (header.group == 2 && header.variation == 0);
    let lanes = match (header.group, header.variation) {
        (60, 2) => of_class(1),
        (60, 3) => of_class(2),
        (60, 4) => of_class(3),
        (2, _) => of_kind(Kind::Binary),
        (22, _) => of_kind(Kind::Counter),
        (32, _) => of_kind(Kind::Analog),
        (60, _) => return Wanted::EachGroup,
        (group, variation) => return Wanted::OneGroup(group, variation, header.range),
    };
    Wanted::Rows(RowPart {
        lanes,
        most,
        is_open,
    })
}
