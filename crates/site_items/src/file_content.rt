// The content of files, with the place of their front matter.
ghost use Rattle.std.specs.Prelude.{◌≡◌};
ghost use Rattle.std.specs.Option.{option_copied};
ghost use Rattle.front_yaml.specs.Front.{HasCuts, front};
ghost use Rattle.site_items.specs.Matter.{IsKnown};

use crate::item_error::LineFault;
use crate::matter::Matter;
use front_yaml::{Front, split_front};
use site_base::SharedBytes;
use std::marker::Model;

/// The bytes of a file, with the place of its front matter, which is looked for once. Clauses see the bytes alone.
#[derive(Drop)]
pub struct FileContent<'a> {
    bytes: &'a SharedBytes,
    matter: Front,
    // Its variables and its body, or its fault, where they were read before.
    known: Option<&'a Result<Matter, LineFault>>,
}

impl<'a> Model for FileContent<'a> {
    ghost use Rattle.std.specs.Prelude.{◌≡◌, List, ℕ};
    ghost use Rattle.std.specs.Option.{option_copied};
    ghost use Rattle.front_yaml.specs.Front.{HasCuts, front};
    ghost use Rattle.site_items.specs.Matter.{IsKnown};

    ghost Value = { List ℕ };

    ghost view = { λ content. content.bytes.now };

    // The front matter is that of the bytes, a text that they are may be cut at its places, and what is known is found in them.
    ghost invariant = { λ content. (content.matter ≡ front content.bytes.now) × HasCuts content.bytes.now content.matter × IsKnown content.bytes.now (option_copied content.known) };
}

impl<'a> FileContent<'a> {
    /// The content of a file, whose front matter is looked for here.
    pub fn of(bytes: &'a SharedBytes) -> FileContent<'a>
        ensures { result ≡ bytes.now }
    {
        FileContent {
            bytes,
            matter: split_front(bytes.as_slice()),
            known: None,
        }
    }

    /// The content of these bytes, of which this is known.
    pub(crate) fn with(
        bytes: &'a SharedBytes,
        matter: Front,
        known: Option<&'a Result<Matter, LineFault>>,
    ) -> FileContent<'a>
        requires front { matter ≡ front bytes.now }
        requires cuts { HasCuts bytes.now matter }
        requires known { IsKnown bytes.now (option_copied known) }
        ensures { result ≡ bytes.now }
    {
        FileContent {
            bytes,
            matter,
            known,
        }
    }

    /// The bytes of the file.
    pub fn bytes(&self) -> &'a SharedBytes
        ensures { result.now ≡ self.now }
    {
        self.bytes
    }

    /// Where the front matter and the body of the file stand.
    pub fn front(&self) -> Front
        ensures front { result ≡ front self.now }
        ensures cuts { HasCuts self.now result }
    {
        self.matter
    }

    /// Its variables and its body, or its fault, where they were read before.
    pub(crate) fn known(&self) -> Option<&'a Result<Matter, LineFault>>
        ensures { IsKnown self.now (option_copied result) }
    {
        self.known
    }
}
