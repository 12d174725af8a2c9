ghost use Rattle.std.specs.Prelude.{◌≡◌, ℕ, List, map, string_bytes};
ghost use Rattle.kt_words.specs.Form.{texts};

use std::marker::Model;

/// Names of files. They are seen as their bytes.
#[derive(Drop)]
pub struct Names {
    names: Vec<String>,
}

impl Model for Names {
    ghost Value = { List (List ℕ) };

    ghost view = { λ n. texts n.names.items };
}

impl Names {
    /// The list of these names.
    pub fn from_vec(names: Vec<String>) -> Names
        ensures { result ≡ texts names.items }
    {
        Names { names }
    }

    /// The names, as the vector that holds them.
    pub fn into_vec(self) -> Vec<String>
        ensures { texts result.items ≡ self }
    {
        self.names
    }

    /// The names.
    pub fn as_slice(&self) -> &[String]
        ensures { texts result.now ≡ self.now }
    {
        self.names.as_slice()
    }
}
