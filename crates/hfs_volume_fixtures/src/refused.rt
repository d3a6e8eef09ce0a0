//! What a program needs that runs while memory is refused: a small volume, calls from text, and bytes that are compared without
//! memory. The program compares what it finds with what was written by hand.

mod calls;
mod images;
mod text;

pub use crate::refused::calls::call_of;
pub use crate::refused::images::{Edit, has_bytes, image_with, mounted};
pub use crate::refused::text::{input, split_at};
