//! The commands of Systole, and the call that answers them.
#![tactic(auto)]

mod agreement;
mod answer;
mod check;
mod command;
mod compile;
mod explain;
mod given;
mod judgement;
mod mean;
mod need;
mod read;
mod request;
mod run;
mod say;
mod status;
mod top;
mod words;

pub use agreement::runs_put_the_same_outputs;
pub use status::Status;
pub use top::systole;
