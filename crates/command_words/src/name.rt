ghost use Rattle.std.specs.Prelude.{◌≡◌, ◌<◌, ◌≤◌, ℕ, List, length, IfOk};
ghost use Rattle.std.specs.String.{string_bytes};

use std::alloc::{AllocError, Global};
use std::marker::Model;

/// The most bytes that the name of a file has.
pub(crate) const MOST_FILE_NAME_BYTES: usize = 255;

/// The name of a file: a text of 1 to 255 bytes.
#[derive(Debug, Drop)]
pub struct Name255 {
    text: String,
}

impl Model for Name255 {
    ghost Value = { List ℕ };

    ghost view = { λ a. string_bytes a.text };

    ghost invariant = { λ a. (0 < length (string_bytes a.text)) × (length (string_bytes a.text) ≤ 255) };
}

impl Name255 {
    /// The name that this text of 1 to 255 bytes is.
    pub fn of(alloc: Global, text: &str) -> Result<Name255, AllocError>
        requires least { 0 < length text.now }
        requires most { length text.now ≤ 255 }
        ensures { IfOk result (λ name. name ≡ text.now) }
    {
        Ok(Name255 {
            text: String::from_str(alloc, text)?,
        })
    }

    /// Its text.
    pub fn text(&self) -> &str
        ensures text { result.now ≡ self.now }
        ensures least { 0 < length result.now }
        ensures most { length result.now ≤ 255 }
    {
        self.text.as_str()
    }
}

impl PartialEq for Name255 {
    ghost use Rattle.std.specs.Str.{bytes_eq};
    ghost use Rattle.std.specs.Cmp.{partial_equiv_from_equiv};
    ghost use Rattle.std.proofs.lemmas.Cmp.{nat_list_eq_equiv};

    ghost eq = { λ a b. bytes_eq a b };

    ghost laws = { partial_equiv_from_equiv nat_list_eq_equiv };

    fn eq(&self, other: &Name255) -> bool {
        self.text() == other.text()
    }
}

impl Eq for Name255 {
    ghost use Rattle.std.proofs.lemmas.Cmp.{nat_list_eq_equiv};

    ghost laws = { nat_list_eq_equiv };
}
