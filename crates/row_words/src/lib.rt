//! The words of a trace's rows as bytes, both ways: numbers, places, values, kinds, lists of values, and accesses with their locations and contents.
//!
//! `specs/Bytes.antt` and `specs/AccessBytes.antt` say which bytes they are, `specs/Fits.antt` which numbers are in range; a content or a change is of its
//! location's own kind. What is written is these bytes. What is read is what `specs/Reading.antt` and `specs/AccessReading.antt` compute.
//! [`words_are_read_exactly`] and [`accesses_are_read_exactly`] say that this is exact: what has these bytes is read again, whatever follows it, and
//! what is read has them.
#![tactic(auto)]

mod access_laws;
mod access_tags;
mod fault;
mod laws;
mod reading_accesses;
mod reading_contents;
mod reading_lists;
mod reading_locations;
mod reading_numbers;
mod reading_values;
mod tags;
mod texts;
mod writing;
mod writing_accesses;

pub use access_laws::accesses_are_read_exactly;
pub use fault::ReadFault;
pub use laws::words_are_read_exactly;
pub use reading_accesses::read_accesses;
pub use reading_lists::read_values;
pub use reading_numbers::{read_byte, read_number, read_place, read_short, read_signed};
pub use reading_values::{read_made, read_value};
pub use texts::{read_front, read_text, write_text};
pub use writing::{
    write_byte, write_made, write_number, write_numbered, write_place, write_placed, write_tagged,
    write_values,
};
pub use writing_accesses::write_accesses;
