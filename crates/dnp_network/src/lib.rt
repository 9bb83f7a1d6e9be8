//! Where the stations of a plan are: the text of a network, in TOML, beside the text of its plan, and the table of what
//! people call its points, in CSV. `read_network` reads the one, `records_of` and `points_in` the other; `name_of_point`
//! tells what people call a point.
#![tactic(auto)]

mod disagreement;
mod endpoint;
mod head;
mod keys;
mod kind;
mod links;
mod listed;
mod looked;
mod network;
mod place;
mod points;
mod points_reason;
mod polling;
mod polling_values;
mod said;
mod shown;
mod sites;
mod twice;
mod words;

pub use disagreement::Disagreement;
pub use endpoint::{Endpoint, EndpointFault, Host, endpoint_in};
pub use kind::{PointCounts, PointKind, count_of};
pub use links::{CentreOf, LinkEnds, address_of};
pub use listed::Listed;
pub use network::{Head, Network, NetworkFault, Site, read_network};
pub use place::{MAX_SITES, MsRange, NetworkKey, NetworkPlace, Part, Stands};
pub use points::{
    PointId, PointName, PointsFault, RowStands, name_of_point, points_in, records_of,
};
pub use points_reason::PointsReason;
pub use polling::Polling;
pub use polling_values::{ClassSet, NEVER_MS};
pub use said::{NetworkReason, network_reason};
pub use shown::{CsvText, JsonText, PlainText};
pub use words::Words;
