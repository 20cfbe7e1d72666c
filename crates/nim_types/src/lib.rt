//! Types, and the table that numbers them.
#![tactic(auto)]

mod blocks;
mod entries;
mod equal;
mod index;
mod laws;
mod slot;
mod storage;
mod table;
mod types;

pub use blocks::{HEADER_BYTES, LEAST_BLOCK, MOST_BLOCK, class_of};
pub use entries::{declared_types, entry, says};
pub use laws::{equal_types, table_entries, table_growth, type_examples, type_forms};
pub use table::TypeTable;
pub use types::{FieldName, LIST_BYTES, TypeDef, TypeId, WORD_BYTES};
