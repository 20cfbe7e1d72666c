//! The parser of declarations: names, written types, definitions, and heads of procedures.
#![tactic(auto)]

mod array_form;
mod body;
mod declare;
mod define;
mod head;
mod laws;
mod look;
mod make;
mod name;
mod parse;
mod pragmas;
mod reading;
mod total;
mod values;
mod written;

pub use laws::{
    definition_blocks_agree, definitions_agree, heads_agree, names_agree, type_declarations_agree,
};
pub use look::{deeper_at, is_end, level_at, spaces_at, stands_at};
pub use name::read_name;
pub use parse::{definition, definition_block, names, procedure_head, type_declarations};
pub use reading::{Reading, and_one, left_out, stuck, too_deep};
pub use total::{declaration_or_fault, declarations_end};
pub use values::{read_callee, read_value};
