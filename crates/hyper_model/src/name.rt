ghost use Rattle.std.specs.Prelude.{◌≡◌, ◌<◌, ◌≤◌, ℕ, List, true, false, length, take, IsTrue, IfOk};
ghost use Rattle.std.specs.List.{list_all};
ghost use Rattle.std.specs.Result.{IsErrOf};
ghost use Rattle.std.specs.Str.{is_utf8};
ghost use Rattle.hyper_model.specs.Name.{is_name, may_stand, is_short};
ghost use Rattle.hyper_model.specs.declared.name.TheConstants.{MOST_NAME_BYTES};

use std::alloc::{AllocError, Global};
use std::fmt;
use std::hash::{Hash, Hasher};
use std::marker::Model;

/// The most bytes that a name has.
pub const MOST_NAME_BYTES: usize = 32;

/// ASCII's control code after the printed characters.
const DELETE: u8 = 127;

/// Why bytes gave no [`Name`].
#[derive(Clone, Copy, Debug, PartialEq, Eq)]
pub enum NameEnd {
    /// The bytes are no name.
    BadName,
    /// They are one, and there was no memory for it.
    NoMemory,
}

/// The name of a unit, of an atom or of a text.
///
/// It has 1 to 32 bytes of UTF-8 without control codes, commas and double quotes, so that a
/// record of comma-separated values can hold it as it is. Letters differ by case. It is kept
/// without memory from an allocator, since a text may have hundreds of thousands of names.
#[derive(Debug, Drop)]
pub struct Name {
    bytes: [u8; MOST_NAME_BYTES],
    len: u8,
}

impl Model for Name {
    ghost Value = { List ℕ };

    ghost view = { λ a. take a.len a.bytes };

    ghost invariant = { λ a. is_name (take a.len a.bytes) ≡ true × (a.len ≤ MOST_NAME_BYTES) };
}

impl Name {
    /// The name that these bytes are.
    pub fn of(_alloc: Global, bytes: &[u8]) -> Result<Name, NameEnd>
        ensures name { IfOk result (λ name. name ≡ bytes.now) }
        ensures is_name { IfOk result (λ _. is_name bytes.now ≡ true) }
        ensures bad_name { IsErrOf result NameEnd.BadName → is_name bytes.now ≡ false }
        ensures no_memory { IsErrOf result NameEnd.NoMemory → is_name bytes.now ≡ true }
    {
        if !is_name(bytes) {
            return Err(NameEnd::BadName);
        }
        let mut kept = [0; MOST_NAME_BYTES];
        kept[..bytes.len()].copy_from_slice(bytes);
        Ok(Name {
            bytes: kept,
            len: bytes.len() as u8,
        })
    }

    /// The same name once more.
    pub fn copied(&self, _alloc: Global) -> Result<Name, AllocError>
        ensures { IfOk result (λ name. name ≡ self.now) }
    {
        Ok(Name {
            bytes: self.bytes,
            len: self.len,
        })
    }

    /// Its text.
    pub fn text(&self) -> &str
        ensures text { result.now ≡ self.now }
        ensures is_name { is_name result.now ≡ true }
    {
        match str::from_utf8(&self.bytes[..usize::from(self.len)]) {
            Ok(text) => text,
            Err(_) => "",
        }
    }
}

fn is_name(bytes: &[u8]) -> bool
    ensures name { result ≡ is_name bytes.now }
    ensures short { IsTrue result → length bytes.now ≤ MOST_NAME_BYTES }
{
    has_name_length(bytes) && has_name_bytes(bytes) && is_text(bytes)
}

fn is_text(bytes: &[u8]) -> bool
    ensures { result ≡ is_utf8 bytes.now }
{
    match str::from_utf8(bytes) {
        Ok(_) => true,
        Err(_) => false,
    }
}

fn has_name_length(bytes: &[u8]) -> bool
    ensures { result ≡ is_short bytes.now }
{
    !bytes.is_empty() && bytes.len() <= MOST_NAME_BYTES
}

fn has_name_bytes(bytes: &[u8]) -> bool
    ensures { result ≡ list_all may_stand bytes.now }
{
    bytes.iter().all(|byte| is_name_byte(*byte))
}

fn is_name_byte(byte: u8) -> bool
    ensures { result ≡ may_stand byte }
{
    byte >= b' ' && byte != DELETE && byte != b',' && byte != b'"'
}

impl PartialEq for Name {
    ghost use Rattle.std.specs.Str.{bytes_eq};
    ghost use Rattle.std.specs.Cmp.{partial_equiv_from_equiv};
    ghost use Rattle.std.proofs.lemmas.Cmp.{nat_list_eq_equiv};

    ghost eq = { λ a b. bytes_eq a b };

    ghost laws = { partial_equiv_from_equiv nat_list_eq_equiv };

    fn eq(&self, other: &Name) -> bool {
        self.text() == other.text()
    }
}

impl Eq for Name {
    ghost use Rattle.std.proofs.lemmas.Cmp.{nat_list_eq_equiv};

    ghost laws = { nat_list_eq_equiv };
}

impl Hash for Name {
    ghost use Rattle.std.specs.Hash as fed;
    ghost use Rattle.std.specs.Cmp.Rules.{hashing};
    ghost use Rattle.std.proofs.Common.{rules};

    ghost hash_input = { λ a. fed.str a };

    ghost respects_eq = { Prim.search (hashing, rules) };

    fn hash<H: Hasher>(&self, state: &mut H) {
        self.text().hash(state);
    }
}

impl fmt::Display for Name {
    ghost use Rattle.std.specs.Prelude.{Some};

    ghost output = { λ name. Some name };

    fn fmt<W: fmt::Write>(&self, f: &mut fmt::Formatter<W>) -> fmt::Result {
        f.write_str(self.text())
    }
}
