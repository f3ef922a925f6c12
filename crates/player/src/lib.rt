// The runner of frames.
#![tactic(auto)]

pub mod around;
pub mod call;
pub mod heap;
pub mod lines;
pub mod port;
pub mod rounds;
pub mod row;
pub mod run;
pub mod stack;
pub mod state;
pub mod turn;
