//! Macintosh texts for hosts: Mac OS Roman in UTF-8, plain text, host names, paths, and moments.
//!
//! Mac paths, from their text to the names on the way.
//!
//! What the program reads and prints, whatever the volume: bytes from any reader to any writer, the lines of an image's head, and
//! the text of a reply.
#![tactic(auto)]

mod calendar;
mod characters;
mod digits;
mod hosts;
mod info;
mod input;
mod moments;
mod name_laws;
mod output;
mod path_laws;
mod paths;
mod plain;
mod reading;
mod reply;
mod text;

pub use characters::push_characters;
pub use digits::push_hex;
pub use hosts::{host_name, push_host_name};
pub use info::{InfoFault, run_info};
pub use input::{IMAGE_LIMIT, LoadFault, load, load_within};
pub use moments::push_moment;
pub use name_laws::{day_laws, host_name_laws, host_path_laws, known_moments};
pub use output::put;
pub use path_laws::printed_paths_are_read;
pub use paths::{push_host_path, push_mac_path, push_mac_path_characters};
pub use plain::push_plain_text;
pub use reading::path_names;
pub use reply::{push_reply, reply_text};
pub use text::{Show, push_line};
