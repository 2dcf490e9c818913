//! How values that hold no objects are spelled, as bytes of text (`specs/Printing.antt` of `py_model`). Each function answers the word of the
//! model for what it is given.
//!
//! - [`int_text`], [`truth_text`]: an integer and a truth value. [`literal`]: a text as a literal. [`range_text`]: a range.
//! - [`class_word`] and [`builtin_text`]: the classes and functions of the language.
//! - [`is_low`] and [`key_text`]: a key of a dictionary, which may be a tuple of keys.
#![tactic(auto)]

mod items;
mod keys;
mod literals;
mod printed;
mod words;

pub use items::{push_item, tuple_end};
pub use keys::{is_low, key_text};
pub use literals::literal;
pub use printed::{int_text, truth_text};
pub use words::{angled, builtin_text, class_word, range_text};
