// Texts as the keys of a map.
ghost use Rattle.std.specs.Prelude.{◌≡◌};
ghost use Rattle.text_pool.specs.TextKeys.{bytes_in};

use std::hash::{Hash, Hasher};

// A text that is kept, or one that is asked for.
#[derive(Drop)]
pub(crate) enum TextKey<'a> {
    Kept(Vec<u8>),
    Asked(&'a [u8]),
}

impl<'a> TextKey<'a> {
    pub(crate) fn bytes(&self) -> &[u8]
        ensures { result.now ≡ bytes_in self.now }
    {
        match self {
            TextKey::Kept(bytes) => bytes.as_slice(),
            TextKey::Asked(bytes) => bytes,
        }
    }
}

impl<'a> PartialEq for TextKey<'a> {
    ghost use Rattle.std.specs.Cmp.{partial_equiv_from_equiv};
    ghost use Rattle.text_pool.specs.TextKeys.{same_key, same_key-equiv};

    ghost eq = { same_key };

    ghost laws = { partial_equiv_from_equiv same_key-equiv };

    fn eq(&self, other: &Self) -> bool {
        self.bytes() == other.bytes()
    }
}

impl<'a> Eq for TextKey<'a> {
    ghost use Rattle.text_pool.specs.TextKeys.{same_key-equiv};

    ghost laws = { same_key-equiv };
}

impl<'a> Hash for TextKey<'a> {
    ghost use Rattle.text_pool.specs.TextKeys.{key_writes, key_writes-same};

    ghost hash_input = { key_writes };

    ghost respects_eq = { key_writes-same };

    fn hash<H: Hasher>(&self, state: &mut H) {
        state.write(self.bytes());
    }
}
