use super::lists::Locals;
use super::stmt::Stmt;
use kt_types::Text;

/// A defined function. Its first locals are its parameters, `params` of them. A result of none is `void`; `noted` is true
/// where it is declared with `E_NOTELOCALS`.
#[derive(Drop)]
pub struct Fun {
    pub name: Text,
    pub result: Option<u32>,
    pub params: u32,
    pub noted: bool,
    pub locals: Locals,
    pub body: Stmt,
}
