//! Values, attributes, entries and records: the data that every layer of Giltmoth speaks of.
//!
//! A contract sees a `Seq` as a list and a `Text` as the list of its bytes, so a record is plain
//! data: its paths, and its immediates. The layers above use that a copy is the value itself, that a
//! text has the one value of a kind that the table gives, that a printed value reads back, and that
//! `==`, the order and hashing agree, with `==` the sameness of values. Nothing is promised of where
//! a list lies in memory.
#![tactic(auto)]

mod attribute;
mod copying;
mod digits;
mod exact;
mod fixed_read;
mod fixed_text;
mod flat;
mod kind;
mod laws;
mod memory;
mod parse;
mod print;
mod props;
mod record;
mod seq;
mod text;
mod variant;
mod variant_order;

pub use attribute::{Attribute, Entry};
pub use copying::TryCopy;
pub use exact::{Exact, same};
pub use flat::Flat;
pub use kind::Kind;
pub use laws::{order_is_exact, printed_reads_back};
pub use memory::OutOfMemory;
pub use parse::{ValueFault, parse_value};
pub use print::print_value;
pub use props::Props;
pub use record::{Rec, Records};
pub use seq::Seq;
pub use text::Text;
pub use variant::Variant;
