// Scripts: performing the command that a line asks for, and writing its answer.
#![tactic(auto)]

mod play;
mod session;

pub use play::{Stop, perform_line, play_script, play_stdin};
pub use session::{Session, Trouble};
