ghost use Rattle.std.specs.Prelude.{◌≡◌, string_bytes};

use lists::{Copied, List, NoMemory};
use std::alloc::Global;
use std::marker::Model;

/// A name. A contract sees the bytes of its text.
#[derive(Debug, Drop)]
pub struct Name {
    text: String,
}

impl Model for Name {
    ghost use Rattle.std.specs.Prelude.{List, ℕ, string_bytes};

    ghost Value = { List ℕ };

    ghost view = { λ name. string_bytes name.text };
}

impl Name {
    /// The name with this text. It takes no memory.
    pub fn new(text: String) -> Name
        ensures { result ≡ string_bytes text }
    {
        Name { text }
    }

    /// The text. It takes no memory.
    pub fn as_str(&self) -> &str
        ensures { result.now ≡ self.now }
    {
        self.text.as_str()
    }
}

impl Copied for Name {
    fn copy(&self, alloc: Global) -> Result<Name, NoMemory> {
        Ok(Name {
            text: String::from_str(alloc, self.as_str())?,
        })
    }
}

/// A list of names.
pub type Names = List<Name>;
