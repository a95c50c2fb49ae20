//! What answers one command: a session, the reply, and what the command does to the session and to the files.
#![tactic(auto)]

mod answering;
mod apply;
mod audit;
mod bench;
mod heads;
mod history;
mod laws;
mod listing;
mod reading;
mod replies;
mod request;
mod saving;
mod session;
mod stats;
mod stop;
mod views;

pub use answering::answer;
pub use laws::{one_run, some_answer};
pub use replies::refuses;
pub use request::{Request, RequestRef};
pub use session::Session;
pub use stop::Stop;
