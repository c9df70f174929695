//! The command line of `nfsacc`.
#![tactic(auto)]

mod arguments;
mod check_numbers;
mod examples;
mod host_numbers;
mod hosts;
mod keys;
mod lists;
mod member_numbers;
mod request;
mod serve;
mod serve_numbers;

pub use check_numbers::{StateRefusal, state_number};
pub use examples::lines_are_read;
pub use host_numbers::{
    AskOrder, GatewayOrder, HostRefusal, ServerOrder, WitnessOrder, ask_order, gateway_order,
    server_order, witness_order,
};
pub use hosts::{AskRequest, GatewayRequest, ServerRequest, WitnessRequest};
pub use keys::{MemberRequest, RostersRequest};
pub use lists::Peer;
pub use member_numbers::{MemberOrder, MemberRefusal, member_order};
pub use request::{CheckRequest, Request, RunRequest, parse};
pub use serve::ServeRequest;
pub use serve_numbers::{ServeOrder, ServeRefusal, serve_order};
