// Eight plain foils kept apart, for the foils of a sheet to be compared with: calls at random on them, what each call
// should come to by the words of the documents, and the table that their rows make.
#![tactic(auto)]

mod asks;
mod records;
mod rows;
mod wants;

pub use asks::{Asked, Four, Kind, Short, Terms, Wrong, choose, elbow, list_size};
pub use records::record_of;
pub use rows::{Kept, foil_at, no_foil, none_begun, sum, write_strips, write_table};
pub use wants::{Want, want_of};
