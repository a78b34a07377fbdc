// What a memory is, three makes of it, and big-endian access over any of them.
#![tactic(auto)]

mod access;
mod element;
mod inside;
mod laws;
mod meaning;
mod owned;
mod spliced;
mod width;

pub use access::{load, store};
pub use element::Element;
pub use inside::{load_inside, store_inside};
pub use laws::accesses_stand;
pub use meaning::Memory;
pub use owned::{Flat, Owned, Words};
pub use spliced::Spliced;
pub use width::Width;
