// Sheets of shares, their judgement against a card, and accepted placements.
#![tactic(auto)]

mod accept;
mod judge;
mod placement;
mod questions;
mod rows;
mod types;

pub use placement::Placement;
pub use types::{MAX_ROWS, Sheet};
