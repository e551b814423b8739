// The order of errors by value: what it asks of the table is handed to it; the SAP test; and a stream by value, as it stands after a
// row.
#![tactic(auto)]

mod datagrams;
mod errors;
mod exclusions;
mod order;
mod saps;
mod streams;

pub use datagrams::judge_datagram;
pub use errors::error_of;
pub use exclusions::excluded_by;
pub use order::{
    judge_accept, judge_attach, judge_bind, judge_connect, judge_disconnect, without_row,
};
pub use saps::as_bind_allows;
pub use streams::{attached_in, settled};
