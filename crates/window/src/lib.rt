// A window over any memory: loads and stores that all happen inside of it.
#![tactic(auto)]

mod code;
mod extent;
mod view;
mod window;

pub use extent::Extent;
pub use view::View;
pub use window::Window;
