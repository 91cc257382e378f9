// Texts, of which most are short.
ghost use Rattle.std.specs.Prelude.{◌≡◌, ◌≤◌, ◌+◌, ◌↔◌, IsTrue, ◌++◌, [], IfOk, IfSome, OnOk, OnErr, drop, length};
ghost use Rattle.std.specs.Arc.{arc_value};
ghost use Rattle.std.specs.String.{string_bytes};
ghost use Rattle.site_base.specs.Texts.{text_at};

use crate::{Memory, SharedBytes};
use std::alloc::Global;
use std::marker::Model;
use std::str;
use std::sync::Arc;

/// How many bytes a text may have that stands in the value itself.
const MOST_LETTERS: usize = 14;

/// A text, which clauses see as its bytes in UTF-8. It has sixteen bytes, and one of at most 14 bytes takes no memory besides.
/// Of one that was made by `shared`, and of the end of a file, further holders take little more.
pub struct Text {
    place: Place,
    alloc: Global,
}

const _: () = prove!(size_of::<Text>() == 16);

// Where a text stands.
#[derive(Drop)]
enum Place {
    Inside(Letters),
    Outside(Box<String>),
    // With other holders, perhaps.
    Shared(Arc<String>),
    End(Box<FileEnd>),
}

// The bytes of a text of at most 14, which clauses see as these bytes.
#[derive(Drop)]
struct Letters {
    len: u8,
    bytes: [u8; MOST_LETTERS],
}

// The bytes of a file from a place on, which are UTF-8. The file's holders share them.
#[derive(Drop)]
struct FileEnd {
    file: SharedBytes,
    start: usize,
}

impl Model for FileEnd {
    ghost use Rattle.std.specs.Prelude.{List, ℕ, ◌≤◌, drop, length, IsUtf8};

    ghost Value = { List ℕ };

    ghost view = { λ end. drop end.start end.file };

    ghost invariant = { λ end. (end.start ≤ length end.file) × ∥ IsUtf8 (drop end.start end.file) ∥₁ };
}

impl Model for Text {
    ghost use Rattle.std.specs.Prelude.{List, ℕ};
    ghost use Rattle.site_base.specs.Texts.{text_at};

    ghost Value = { List ℕ };

    ghost view = { λ text. text_at text.place };
}

impl Model for Letters {
    ghost use Rattle.std.specs.Prelude.{List, ℕ, ◌≤◌, take, IsUtf8};

    ghost Value = { List ℕ };

    ghost view = { λ letters. take letters.len letters.bytes };

    ghost invariant = { λ letters. (letters.len ≤ 14) × ∥ IsUtf8 (take letters.len letters.bytes) ∥₁ };
}

// A call of its own, so that no proof goes by cases where a text is dropped.
impl Drop for Text {
    fn drop(self) {
        let Text { place: _, alloc: _ } = self;
    }
}

impl Text {
    /// The empty text; it takes no memory.
    pub fn new(alloc: Global) -> Text
        ensures { result ≡ [] }
    {
        Text {
            place: Place::Inside(Letters::empty()),
            alloc,
        }
    }

    /// A text that was made; where it has more than 14 bytes, they are not copied.
    pub fn from_string(text: String) -> Result<Text, Memory>
        ensures { IfOk result (λ made. made ≡ string_bytes text) }
    {
        let alloc = *text.allocator();
        let place = if text.len() <= MOST_LETTERS {
            Place::Inside(Letters::copy(text.as_str()))
        } else {
            Place::outside(alloc, text)?
        };
        Ok(Text { place, alloc })
    }

    pub fn copy(alloc: Global, text: &str) -> Result<Text, Memory>
        ensures { IfOk result (λ copy. copy ≡ text.now) }
    {
        Ok(Text {
            place: Place::copy(alloc, text)?,
            alloc,
        })
    }

    /// The text of which this is a holder.
    pub(crate) fn from_holder(alloc: Global, text: Arc<String>) -> Text
        ensures { result ≡ string_bytes (arc_value text) }
    {
        Text {
            place: Place::Shared(text),
            alloc,
        }
    }

    /// A copy that further holders can share.
    pub fn shared(alloc: Global, text: &str) -> Result<Text, Memory>
        ensures { IfOk result (λ copy. copy ≡ text.now) }
    {
        Text::copy(alloc, text)?.into_shared()
    }

    /// The text, which further holders can share now; no byte is copied.
    pub fn into_shared(self) -> Result<Text, Memory>
        ensures { IfOk result (λ shared. shared ≡ self) }
    {
        let Text { place, alloc } = self;
        let place = match place {
            Place::Outside(text) => Place::shared(alloc, Box::into_inner(text))?,
            place => place,
        };
        Ok(Text { place, alloc })
    }

    /// The bytes of a file from a place on. Where there are more than 14, they are not copied, but shared with the file.
    pub fn end_of(
        alloc: Global,
        file: &SharedBytes,
        start: usize,
        end: &str,
    ) -> Result<Text, Memory>
        requires place { start ≤ length file.now }
        requires end { drop start file.now ≡ end.now }
        ensures { IfOk result (λ text. text ≡ end.now) }
    {
        let place = if end.len() <= MOST_LETTERS {
            Place::Inside(Letters::copy(end))
        } else {
            let file = file.share()?;
            Place::end(alloc, FileEnd { file, start })?
        };
        Ok(Text { place, alloc })
    }

    /// The text as a file of its own, whose bytes `whole_file` lends. Bytes that nobody else holds are not copied, and of a
    /// text of at most 14 there is no file.
    pub fn into_file(self) -> Result<Text, Memory>
        ensures { IfOk result (λ made. made ≡ self) }
    {
        if self.as_str().len() <= MOST_LETTERS {
            return Ok(self);
        }
        let alloc = self.alloc;
        let file = SharedBytes::from_vec(alloc, self.into_bytes()?)?;
        let place = Place::end(alloc, FileEnd { file, start: 0 })?;
        Ok(Text { place, alloc })
    }

    /// The file of which the text is all bytes, where it shares them with one.
    pub fn whole_file(&self) -> Option<&SharedBytes>
        ensures { IfSome result (λ file. file.now ≡ self.now) }
    {
        match &self.place {
            Place::End(end) => end.whole_file(),
            Place::Inside(_) | Place::Outside(_) | Place::Shared(_) => None,
        }
    }

    /// A further holder of the text. What can be shared is not copied.
    pub fn share(&self, alloc: Global) -> Result<Text, Memory>
        ensures { IfOk result (λ shared. shared ≡ self.now) }
    {
        let place = match &self.place {
            Place::Shared(text) => Place::Shared(text.clone()?),
            Place::End(end) => Place::end(alloc, end.share()?)?,
            Place::Inside(_) | Place::Outside(_) => Place::copy(alloc, self.as_str())?,
        };
        Ok(Text { place, alloc })
    }

    pub fn as_str(&self) -> &str
        ensures { result.now ≡ self.now }
    {
        match &self.place {
            Place::Inside(letters) => letters.as_str(),
            Place::Outside(text) => text.as_str(),
            Place::Shared(text) => text.as_str(),
            Place::End(end) => end.as_str(),
        }
    }

    pub fn as_bytes(&self) -> &[u8]
        ensures { result.now ≡ self.now }
    {
        match &self.place {
            Place::Inside(letters) => letters.as_bytes(),
            Place::Outside(text) => text.as_bytes(),
            Place::Shared(text) => text.as_bytes(),
            Place::End(end) => end.as_bytes(),
        }
    }

    /// The length in bytes.
    pub fn len(&self) -> usize
        ensures { result ≡ length self.now }
    {
        self.as_bytes().len()
    }

    pub fn is_empty(&self) -> bool
        ensures { IsTrue result ↔ (length self.now ≡ 0) }
    {
        self.len() == 0
    }

    /// Adds another text at the end.
    pub fn push_str(&mut self, text: &str) -> Result<(), Memory>
        ensures ok { OnOk result (self.new ≡ self.old ++ text.now) }
        ensures err { OnErr result (self.new ≡ self.old) }
    {
        match &mut self.place {
            Place::Inside(letters) => {
                let place = letters.joined(self.alloc, text)?;
                self.place = place;
            }
            Place::Outside(long) => long.push_str(text)?,
            // Other holders keep theirs.
            Place::Shared(_) | Place::End(_) => {
                let mut whole = String::from_str(self.alloc, self.as_str())?;
                whole.push_str(text)?;
                self.place = Place::outside(self.alloc, whole)?;
            }
        }
        Ok(())
    }

    /// The bytes themselves. Where there are more than 14, and they cannot be shared, they are not copied.
    pub fn into_bytes(self) -> Result<Vec<u8>, Memory>
        ensures { IfOk result (λ bytes. bytes.items ≡ self) }
    {
        let Text { place, alloc } = self;
        match place {
            Place::Inside(letters) => Ok(letters.as_bytes().to_vec(alloc)?),
            Place::Outside(text) => Ok(Box::into_inner(text).into_bytes()),
            Place::Shared(text) => Ok(text.as_bytes().to_vec(alloc)?),
            Place::End(end) => Ok(end.as_bytes().to_vec(alloc)?),
        }
    }
}

impl Place {
    fn copy(alloc: Global, text: &str) -> Result<Place, Memory>
        ensures { IfOk result (λ place. text_at place ≡ text.now) }
    {
        if text.len() <= MOST_LETTERS {
            Ok(Place::Inside(Letters::copy(text)))
        } else {
            Place::outside(alloc, String::from_str(alloc, text)?)
        }
    }

    fn outside(alloc: Global, text: String) -> Result<Place, Memory>
        ensures { IfOk result (λ place. text_at place ≡ string_bytes text) }
    {
        match Box::new(alloc, text) {
            Ok(text) => Ok(Place::Outside(text)),
            Err(_) => Err(Memory),
        }
    }

    fn shared(alloc: Global, text: String) -> Result<Place, Memory>
        ensures { IfOk result (λ place. text_at place ≡ string_bytes text) }
    {
        match Arc::new(alloc, text) {
            Ok(text) => Ok(Place::Shared(text)),
            Err(_) => Err(Memory),
        }
    }

    fn end(alloc: Global, end: FileEnd) -> Result<Place, Memory>
        ensures { IfOk result (λ place. text_at place ≡ end) }
    {
        match Box::new(alloc, end) {
            Ok(end) => Ok(Place::End(end)),
            Err(_) => Err(Memory),
        }
    }
}

impl FileEnd {
    fn share(&self) -> Result<FileEnd, Memory>
        ensures { IfOk result (λ end. end ≡ self.now) }
    {
        Ok(FileEnd {
            file: self.file.share()?,
            start: self.start,
        })
    }

    fn whole_file(&self) -> Option<&SharedBytes>
        ensures { IfSome result (λ file. file.now ≡ self.now) }
    {
        if self.start == 0 {
            Some(&self.file)
        } else {
            None
        }
    }

    fn as_bytes(&self) -> &[u8]
        ensures { result.now ≡ self.now }
    {
        self.as_str().as_bytes()
    }

    fn as_str(&self) -> &str
        ensures { result.now ≡ self.now }
    {
        // They are UTF-8, and not read for that again at each call.
        unsafe { str::from_utf8_unchecked(&self.file.as_slice()[self.start..]) }
    }
}

impl Letters {
    fn empty() -> Letters
        ensures { result ≡ [] }
    {
        Letters {
            len: 0,
            bytes: [0; MOST_LETTERS],
        }
    }

    fn copy(text: &str) -> Letters
        requires { length text.now ≤ 14 }
        ensures { result ≡ text.now }
    {
        let len = text.len();
        let mut bytes = [0; MOST_LETTERS];
        bytes[..len].copy_from_slice(text.as_bytes());
        Letters {
            len: len as u8,
            bytes,
        }
    }

    fn as_bytes(&self) -> &[u8]
        ensures { result.now ≡ self.now }
    {
        &self.bytes[..self.len as usize]
    }

    fn as_str(&self) -> &str
        ensures { result.now ≡ self.now }
    {
        match str::from_utf8(&self.bytes[..self.len as usize]) {
            Ok(text) => text,
            // never, as the letters are UTF-8
            Err(_) => "",
        }
    }

    // The letters with a text at their end.
    fn joined(&self, alloc: Global, text: &str) -> Result<Place, Memory>
        ensures { IfOk result (λ place. text_at place ≡ self.now ++ text.now) }
    {
        if text.len() <= MOST_LETTERS - self.len as usize {
            return Ok(Place::Inside(self.joined_inside(text)));
        }
        let mut whole = String::from_str(alloc, self.as_str())?;
        whole.push_str(text)?;
        Place::outside(alloc, whole)
    }

    fn joined_inside(&self, text: &str) -> Letters
        requires { length self.now + length text.now ≤ 14 }
        ensures { result ≡ self.now ++ text.now }
    {
        let start = self.len as usize;
        let end = start + text.len();
        let mut bytes = self.bytes;
        bytes[start..end].copy_from_slice(text.as_bytes());
        Letters {
            len: end as u8,
            bytes,
        }
    }
}
