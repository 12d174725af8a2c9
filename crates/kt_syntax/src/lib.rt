//! The grammar of C files and its parser.
#![tactic(auto)]

mod answer;
mod constant;
mod declarator;
mod external;
mod fault;
mod function;
mod global;
mod head;
mod laws;
mod local;
mod node;
mod parser;
mod places;
mod pointer;
mod stands;
mod statement;
mod tree;

pub use answer::{file_answer_law, file_depth_law};
pub use fault::SyntaxFault;
pub use laws::file_laws;
pub use parser::parse;
pub use places::file_places_law;
pub use stands::{file_fault_law, file_stands_law};
pub use tree::{
    Body, Constant, Declarator, Extent, Fields, File, ForStart, Function, GlobalDeclarator, Item,
    LocalDeclarator, Locals, Parameter, Pointer, Stars, Stmt,
};
