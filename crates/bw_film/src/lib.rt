//! Films of a table: its drawing at each moment of a trace or of a script, and the page that shows
//! them.
#![tactic(auto)]

mod camera;
mod choice;
mod crew;
mod fault;
mod film;
mod frame;
mod page;
mod rows;
mod script;
mod telling;

pub use choice::Choice;
pub use crew::{AnsweredRow, NumberedRow, Standing};
pub use fault::FilmFault;
pub use film::{Film, MOST_FRAMES};
pub use frame::Frame;
pub use page::page_of;
pub use rows::film_rows;
pub use script::film_script;
