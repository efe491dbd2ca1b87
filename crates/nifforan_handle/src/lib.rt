//! A map behind one pointer that its caller keeps between calls, and the calls on it as C sees
//! them: plain numbers go in, and plain structs come out. `nifforan_c` exports them.
#![tactic(auto)]

mod answer;
mod calls;
mod fill;
mod filled;
mod frozen;
mod handle;
mod held;
mod high;
mod looks;
mod loose;
mod optional;
mod popped;
mod read;
mod settings;
pub mod status;
mod text;

pub use answer::{Cleared, Count, Found, Pair, Read, Reply};
pub use filled::Filled;
pub use handle::Handle;
pub use held::Held;
pub use high::High;
pub use optional::Optional;
pub use popped::Popped;
pub use settings::{SETTINGS_SIZE, Settings};
pub use text::{StatusText, VERSION, status_text};
