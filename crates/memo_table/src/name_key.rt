// Names as the keys of a map.
ghost use Rattle.std.specs.Prelude.{◌≡◌};
ghost use Rattle.memo_table.specs.NameKeys.{name_of};

use site_base::ItemName;
use std::hash::{Hash, Hasher};

// A name that an entry is kept under, or one that is asked for.
#[derive(Drop)]
pub(crate) enum NameKey<'a> {
    Kept(ItemName),
    Asked(&'a ItemName),
}

impl<'a> NameKey<'a> {
    fn name(&self) -> &ItemName
        ensures { result.now ≡ name_of self.now }
    {
        match self {
            NameKey::Kept(name) => name,
            NameKey::Asked(name) => name,
        }
    }
}

impl<'a> PartialEq for NameKey<'a> {
    ghost use Rattle.std.specs.Cmp.{partial_equiv_from_equiv};
    ghost use Rattle.memo_table.specs.NameKeys.{same_key};
    ghost use Rattle.memo_table.specs.SameNames.{same_key-equiv};

    ghost eq = { same_key };

    ghost laws = { partial_equiv_from_equiv same_key-equiv };

    fn eq(&self, other: &Self) -> bool {
        self.name() == other.name()
    }
}

impl<'a> Eq for NameKey<'a> {
    ghost use Rattle.memo_table.specs.SameNames.{same_key-equiv};

    ghost laws = { same_key-equiv };
}

impl<'a> Hash for NameKey<'a> {
    ghost use Rattle.memo_table.specs.NameKeys.{key_writes};
    ghost use Rattle.memo_table.specs.SameNames.{key_writes-same};

    ghost hash_input = { key_writes };

    ghost respects_eq = { key_writes-same };

    fn hash<H: Hasher>(&self, state: &mut H) {
        let name = self.name();
        state.write(name.path.as_bytes());
        state.write_u32(name.part);
    }
}
