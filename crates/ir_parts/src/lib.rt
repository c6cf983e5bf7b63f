//! The parts of a module's items, each read at a place of the tokens: types, runs of passed-on words and metadata.
#![tactic(auto)]

mod brackets;
mod cursor;
mod ending;
mod escapes;
mod fault;
mod forms;
mod global_names;
mod literals;
mod metadata;
mod names;
mod numbers;
mod out_of_memory;
mod passed_text;
mod passed_words;
mod pieces;
mod read_types;
mod runs;
mod types;

pub use cursor::{behind_keyword, behind_sign, next, starts_keyword, starts_sign};
pub use ending::{Ending, Run};
pub use escapes::unescape;
pub use fault::ItemFault;
pub use forms::{inner_text, is_number, is_signed_number, is_string_text};
pub use global_names::read_global_name;
pub use literals::{numeral, word_operand};
pub use metadata::{
    braces as skip_braces, metadata as behind_metadata, skip_bare_attachment, skip_metadata,
    skip_node, skip_pairs, starts_metadata, starts_metadata_word, starts_part,
};
pub use names::{before_last, behind_first, is_global, is_label, is_local, starts_local};
pub use numbers::{are_digits, int_width_of, small_number};
pub use passed_text::text_between;
pub use passed_words::{left_out_place, left_out_word, place_among};
pub use pieces::{group as behind_group, parentheses, string as behind_string};
pub use read_types::{
    read_int_type, read_returned_type, read_scalar_type, read_stored_type, read_type,
};
pub use runs::{read_words, run, words};
