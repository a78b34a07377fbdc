// Plans: which bytes of one memory belong to which compartment.
#![tactic(auto)]

mod ground;
mod laws;
mod layout;
mod placed;
mod plan;
mod row;
mod span;

pub use ground::{Ground, LayRefusal};
pub use laws::{one_refusal, plan_is_sound};
pub use layout::lay;
pub use plan::Plan;
pub use row::Row;
