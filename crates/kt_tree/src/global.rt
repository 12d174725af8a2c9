use kt_types::{Text, View};

/// The initial value of a global (ISO/IEC 9899:2011, 6.7.9).
#[derive(Clone, Copy, PartialEq, Eq)]
pub enum Init {
    /// Of a global without an initialiser: its cells are zero, null or free.
    Zero,
    Number(i64),
    Null,
    /// A pointer to the literal of that number.
    Literal(u32),
    /// A free mutex.
    Free,
}

/// A global: `ty` is the place of its element's type; `array` is true where its declaration has a number in brackets, which
/// is `count`, and else `count` is 1.
#[derive(Clone, Drop)]
pub struct GlobalDecl {
    pub name: Text,
    pub ty: u32,
    pub count: u32,
    pub array: bool,
    pub view: View,
    pub init: Init,
}
