//! What a file is that has no HFS volume at its beginning.
//!
//! The words of a command line, as constants. Each argument is one constant, with which it is declared and its value is read, so
//! both use the same name.
//!
//! What a program prints, and the exit statuses after that.
#![tactic(auto)]

mod declaration;
mod declaring;
mod glance;
mod hints;
mod kind;
mod kinds;
mod line;
mod printing;
mod progress;
mod reading;
mod reasons;
mod refusing;

pub use crate::declaration::{Argument, Declaration, Program, Takes};
pub use crate::declaring::with_word;
pub use crate::glance::{Beside, Glance, Piece};
pub use crate::hints::{tell_hint, tell_sum};
pub use crate::kind::Kind;
pub use crate::kinds::tell_kind;
pub use crate::printing::{VERSION, print_lines};
pub use crate::progress::Progress;
pub use crate::reading::NoValue;
pub use crate::reasons::{tell_more, tell_unread};
pub use crate::refusing::{WordsFault, refused, refused_words};
