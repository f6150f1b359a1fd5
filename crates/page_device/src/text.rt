// Text, as a contract sees it.
ghost use Rattle.std.specs.Prelude.{◌≡◌, string_bytes};

use std::marker::Model;

/// UTF-8 text, which contracts see as the list of its bytes.
#[derive(Debug, Drop)]
pub struct Str {
    text: String,
}

impl Model for Str {
    ghost use Rattle.std.specs.Prelude.{List, ℕ, string_bytes};

    ghost Value = { List ℕ };

    ghost view = { λ s. string_bytes s.text };
}

impl Str {
    /// The text, without taking memory.
    pub fn of(text: String) -> Str
        ensures { result ≡ string_bytes text }
    {
        Str { text }
    }

    pub fn as_str(&self) -> &str
        ensures { result.now ≡ self.now }
    {
        self.text.as_str()
    }

    /// Gives the text back, without taking memory.
    pub fn into_string(self) -> String
        ensures { string_bytes result ≡ self }
    {
        let Str { text } = self;
        text
    }
}
