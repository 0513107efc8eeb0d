//! Files that keep in a journal what they replace, and the restoration after an interrupted call.

pub use hack_journal::apart::{Apart, is_lockfile};
pub use hack_journal::journal::{Entry, JournalFault, read_back, spell};
pub use hack_journal::journaled::Journaled;
pub use hack_journal::laws::names_no_stranger;
pub use hack_journal::place::JournalPlace;
pub use hack_journal::recover::{RecoverFault, recover};
pub use hack_journal::rows::{Row, row_at};
pub use hack_journal::unkept::Unkept;
