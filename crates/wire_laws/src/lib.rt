//! Laws over both halves of the wire, the server's (`upload_wire`) and the client's (`upload_client`): what one writes
//! the other reads as what was meant.
#![tactic(auto)]

mod laws;

pub use laws::{
    asks_may_be_asked, connections_are_joined, exchanges_are_heard, written_asks_are_read,
    written_replies_are_heard,
};
