// Files that are kept from one reading to the next.
ghost use Rattle.std.specs.Prelude.{◌≡◌, ◌↔◌, IfOk, IsTrue};

use crate::file_content::FileContent;
use crate::front_parser::FrontParser;
use crate::item_error::LineFault;
use crate::matter::Matter;
use front_yaml::{Front, split_front};
use site_base::{Memory, SharedBytes};
use std::alloc::Global;
use std::marker::Model;

/// A file whose variables and body are kept once they were read. Clauses see its bytes alone.
#[derive(Drop)]
pub struct KeptFile {
    bytes: SharedBytes,
    matter: Front,
    // Its variables and its body, or its fault, once they were read.
    known: Option<Result<Matter, LineFault>>,
}

impl Model for KeptFile {
    ghost use Rattle.std.specs.Prelude.{◌≡◌, List, ℕ};
    ghost use Rattle.front_yaml.specs.Front.{HasCuts, front};
    ghost use Rattle.site_items.specs.Matter.{IsKnown};

    ghost Value = { List ℕ };

    ghost view = { λ file. file.bytes };

    ghost invariant = { λ file. (file.matter ≡ front file.bytes) × HasCuts file.bytes file.matter × IsKnown file.bytes file.known };
}

impl KeptFile {
    /// A file of which nothing is known but the place of its front matter.
    pub fn of(bytes: SharedBytes) -> KeptFile
        ensures { result ≡ bytes }
    {
        let matter = split_front(bytes.as_slice());
        KeptFile {
            bytes,
            matter,
            known: None,
        }
    }

    /// Whether these are its bytes.
    pub fn has(&self, bytes: &SharedBytes) -> bool
        ensures { IsTrue result ↔ (self.now ≡ bytes.now) }
    {
        self.bytes.as_slice() == bytes.as_slice()
    }

    /// Its content, with what is known of it.
    pub fn content(&self) -> FileContent<'_>
        ensures { result ≡ self.now }
    {
        FileContent::with(&self.bytes, self.matter, self.known.as_ref())
    }

    /// An equal file. What is known of it is shared.
    pub fn share(&self, alloc: Global) -> Result<KeptFile, Memory>
        ensures { IfOk result (λ file. file ≡ self.now) }
    {
        Ok(KeptFile {
            bytes: self.bytes.share()?,
            matter: self.matter,
            known: shared(alloc, &self.known)?,
        })
    }

    /// The file with its variables and its body, which are read here where they were not before.
    pub fn read<P: FrontParser>(self, alloc: Global, parser: &mut P) -> Result<KeptFile, Memory>
        ensures { IfOk result (λ file. file ≡ self) }
    {
        if self.known.is_some() {
            return Ok(self);
        }
        let known = Matter::known(alloc, &self.content(), parser)?;
        Ok(KeptFile {
            bytes: self.bytes,
            matter: self.matter,
            known: Some(known),
        })
    }
}

fn shared(
    alloc: Global,
    known: &Option<Result<Matter, LineFault>>,
) -> Result<Option<Result<Matter, LineFault>>, Memory>
    ensures { IfOk result (λ shared. shared ≡ known.now) }
{
    match known {
        Some(Ok(matter)) => Ok(Some(Ok(matter.share(alloc)?))),
        Some(Err(fault)) => Ok(Some(Err(*fault))),
        None => Ok(None),
    }
}
