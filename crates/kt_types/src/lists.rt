//! Small list types. Each stands over a vector, is seen as a list, is made from a vector and gives it back, without
//! memory.
ghost use Rattle.std.specs.Prelude.{◌≡◌, ◌==◌, ◌≤◌, ℕ, List, length, vec_len};
ghost use Rattle.std.specs.Cmp.{partial_equiv_from_equiv};
ghost use Rattle.std.specs.Cmp.Lexicographic.{pointwise, nat_list_eq_equiv};

use std::alloc::AllocError;
use std::marker::Model;

/// A list of bytes: a name, a string, a file's content.
#[derive(Debug, Drop)]
pub struct Text {
    bytes: Vec<u8>,
}

impl Model for Text {
    ghost Value = { List ℕ };

    ghost view = { λ t. t.bytes.items };
}

impl Text {
    /// The text of these bytes.
    pub fn from_vec(bytes: Vec<u8>) -> Text
        ensures { result ≡ bytes.items }
    {
        Text { bytes }
    }

    /// The bytes, as the vector that holds them.
    pub fn into_vec(self) -> Vec<u8>
        ensures { result.items ≡ self }
    {
        self.bytes
    }

    /// The bytes.
    pub fn as_bytes(&self) -> &[u8]
        ensures { result.now ≡ self.now }
    {
        self.bytes.as_slice()
    }
}

impl Clone for Text {
    ghost is_clone = { λ a b. b ≡ a };

    fn clone(&self) -> Result<Text, AllocError> {
        Ok(Text {
            bytes: self.bytes.clone()?,
        })
    }
}

impl PartialEq for Text {
    ghost eq = { pointwise ◌==◌ };

    ghost laws = { partial_equiv_from_equiv nat_list_eq_equiv };

    fn eq(&self, other: &Text) -> bool {
        self.bytes.as_slice() == other.bytes.as_slice()
    }
}

impl Eq for Text {
    ghost laws = { nat_list_eq_equiv };
}

/// A list of numbers.
#[derive(Debug, Drop)]
pub struct Numbers {
    items: Vec<u32>,
}

impl Model for Numbers {
    ghost Value = { List ℕ };

    ghost view = { λ n. n.items.items };
}

impl Numbers {
    /// The list of these numbers.
    pub fn from_vec(items: Vec<u32>) -> Numbers
        ensures { result ≡ items.items }
    {
        Numbers { items }
    }

    /// The numbers, as the vector that holds them.
    pub fn into_vec(self) -> Vec<u32>
        ensures { result.items ≡ self }
    {
        self.items
    }

    /// The numbers.
    pub fn as_slice(&self) -> &[u32]
        ensures { result.now ≡ self.now }
    {
        self.items.as_slice()
    }
}

impl Clone for Numbers {
    ghost is_clone = { λ a b. b ≡ a };

    fn clone(&self) -> Result<Numbers, AllocError> {
        Ok(Numbers {
            items: self.items.clone()?,
        })
    }
}

impl PartialEq for Numbers {
    ghost eq = { pointwise ◌==◌ };

    ghost laws = { partial_equiv_from_equiv nat_list_eq_equiv };

    fn eq(&self, other: &Numbers) -> bool {
        self.items.as_slice() == other.items.as_slice()
    }
}

impl Eq for Numbers {
    ghost laws = { nat_list_eq_equiv };
}

/// The threads of a run's turns, in order: a byte for each turn.
#[derive(Debug, Drop)]
pub struct Turns {
    threads: Vec<u8>,
}

impl Model for Turns {
    ghost Value = { List ℕ };

    ghost view = { λ t. t.threads.items };
}

impl Turns {
    /// The turns of these threads.
    pub fn from_vec(threads: Vec<u8>) -> Turns
        ensures { result ≡ threads.items }
    {
        Turns { threads }
    }

    /// The threads of the turns, as the vector that holds them.
    pub fn into_vec(self) -> Vec<u8>
        ensures { result.items ≡ self }
    {
        self.threads
    }

    /// The threads of the turns.
    pub fn as_slice(&self) -> &[u8]
        ensures { result.now ≡ self.now }
    {
        self.threads.as_slice()
    }
}

impl Clone for Turns {
    ghost is_clone = { λ a b. b ≡ a };

    fn clone(&self) -> Result<Turns, AllocError> {
        Ok(Turns {
            threads: self.threads.clone()?,
        })
    }
}

impl PartialEq for Turns {
    ghost eq = { pointwise ◌==◌ };

    ghost laws = { partial_equiv_from_equiv nat_list_eq_equiv };

    fn eq(&self, other: &Turns) -> bool {
        self.threads.as_slice() == other.threads.as_slice()
    }
}

impl Eq for Turns {
    ghost laws = { nat_list_eq_equiv };
}

/// The names of a version's update points, and after them the names that it only asks about.
#[derive(Debug, Drop)]
pub struct Points {
    names: Vec<Text>,
    updates: u32,
}

impl Model for Points {
    ghost use Rattle.std.specs.Prelude.{◌≤◌, vec_len};
    ghost use Rattle.kt_types.specs.PointNames.{PointNames};

    ghost Value = { PointNames };

    ghost view = { λ p. record { names = p.names.items; updates = p.updates } };

    ghost invariant = { λ p. p.updates ≤ vec_len p.names };
}

impl Points {
    /// The points of these names, of which the first `updates` are update points.
    pub fn from_vec(names: Vec<Text>, updates: u32) -> Points
        requires { updates ≤ vec_len names }
        ensures names { result.names ≡ names.items }
        ensures updates { result.updates ≡ updates }
    {
        Points { names, updates }
    }

    /// The names, as the vector that holds them.
    pub fn into_vec(self) -> Vec<Text>
        ensures { result.items ≡ self.names }
    {
        self.names
    }

    /// The names: first those of the update points.
    pub fn as_slice(&self) -> &[Text]
        ensures names { result.now ≡ self.now.names }
        ensures kinds { self.now.updates ≤ length self.now.names }
    {
        self.names.as_slice()
    }

    /// How many of the names, from the first on, are update points.
    pub fn updates(&self) -> u32
        ensures count { result ≡ self.now.updates }
        ensures within { result ≤ length self.now.names }
    {
        self.updates
    }
}

impl Clone for Points {
    ghost is_clone = { λ a b. b ≡ a };

    fn clone(&self) -> Result<Points, AllocError> {
        Ok(Points {
            names: self.names.clone()?,
            updates: self.updates,
        })
    }
}
