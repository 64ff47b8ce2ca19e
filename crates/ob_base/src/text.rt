//! Names, texts of cells and labels, each of a fixed capacity.
ghost use Rattle.std.specs.Prelude.{◌≡◌, ◌≤◌, length};
ghost use Rattle.ob_base.specs.Texts.{IsPrintable};

use arrayvec::ArrayVec;
use std::marker::Model;

/// The name of a table or a column: at most 32 bytes, in lower case.
#[derive(Clone, Debug, PartialEq, Eq, Drop)]
pub struct Name {
    bytes: ArrayVec<u8, 32>,
}

impl Model for Name {
    ghost use Rattle.std.specs.Prelude.{ℕ, List};

    ghost Value = { List ℕ };

    ghost view = { λ n. n.bytes.items };

    ghost inverse = { λ xs. record { bytes = record { items = xs } } };
}

/// The text of a cell: at most 255 bytes of printable ASCII.
#[derive(Clone, Debug, PartialEq, Eq, Drop)]
pub struct Text {
    bytes: ArrayVec<u8, 255>,
}

impl Model for Text {
    ghost use Rattle.std.specs.Prelude.{ℕ, List};
    ghost use Rattle.ob_base.specs.IsText.{IsText};

    ghost invariant = { IsText };

    ghost Value = { List ℕ };

    ghost view = { λ n. n.bytes.items };

    ghost inverse = { λ xs. record { bytes = record { items = xs } } };
}

/// What heads a printed column: at most 65 bytes, two names and what parts them.
#[derive(Clone, Debug, PartialEq, Eq, Drop)]
pub struct Label {
    bytes: ArrayVec<u8, 65>,
}

impl Model for Label {
    ghost use Rattle.std.specs.Prelude.{ℕ, List};

    ghost Value = { List ℕ };

    ghost view = { λ n. n.bytes.items };

    ghost inverse = { λ xs. record { bytes = record { items = xs } } };
}

// The bytes in a vector of a fixed capacity.
fn filled<const N: usize>(text: &[u8]) -> ArrayVec<u8, N>
    requires { length text.now ≤ N }
    ensures { result.items ≡ text.now }
{
    let mut bytes = ArrayVec::new();
    bytes.try_extend_from_slice(text).unwrap();
    bytes
}

impl Name {
    /// The name of these bytes.
    pub fn from_bytes(text: &[u8]) -> Name
        requires { length text.now ≤ 32 }
        ensures { result ≡ text.now }
    {
        Name {
            bytes: filled(text),
        }
    }

    /// Its bytes.
    pub fn as_bytes(&self) -> &[u8]
        ensures value { result.now ≡ self.now }
        ensures few { length self.now ≤ 32 }
    {
        self.bytes.as_slice()
    }

    /// The same name.
    pub fn copied(&self) -> Name
        ensures { result ≡ self.now }
    {
        Name {
            bytes: filled(self.bytes.as_slice()),
        }
    }
}

impl Text {
    /// The text of these bytes.
    pub fn from_bytes(text: &[u8]) -> Text
        requires few { length text.now ≤ 255 }
        requires printable { IsPrintable text.now }
        ensures { result ≡ text.now }
    {
        Text {
            bytes: filled(text),
        }
    }

    /// Its bytes.
    pub fn as_bytes(&self) -> &[u8]
        ensures value { result.now ≡ self.now }
        ensures few { length self.now ≤ 255 }
        ensures printable { IsPrintable self.now }
    {
        self.bytes.as_slice()
    }

    /// The same text.
    pub fn copied(&self) -> Text
        ensures value { result ≡ self.now }
        ensures few { length self.now ≤ 255 }
        ensures printable { IsPrintable self.now }
    {
        Text {
            bytes: filled(self.bytes.as_slice()),
        }
    }
}

impl Label {
    /// The label of these bytes.
    pub fn from_bytes(text: &[u8]) -> Label
        requires { length text.now ≤ 65 }
        ensures { result ≡ text.now }
    {
        Label {
            bytes: filled(text),
        }
    }

    /// Its bytes.
    pub fn as_bytes(&self) -> &[u8]
        ensures { result.now ≡ self.now }
    {
        self.bytes.as_slice()
    }
}
