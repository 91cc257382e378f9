// The keys of look-ups.
ghost use Rattle.std.specs.Prelude.{◌≡◌, ◌↔◌, IfOk, IsTrue};
ghost use Rattle.std.specs.List.{fold};
ghost use Rattle.site_base.specs.View.{items_of};
ghost use Rattle.read_record.specs.Keys.{item_writes};

use site_base::{ItemName, List, Memory, SitePath, Text, Value, equals};
use std::alloc::Global;
use std::hash::{Hash, Hasher};

/// What is looked up.
#[derive(Drop)]
pub enum Key {
    /// The body of an item.
    Source(ItemName),
    /// The converted text of an item that stands earlier, else its body.
    Content(ItemName),
    /// The output of an item that stands earlier.
    Output(ItemName),
    /// A variable of an item.
    Var(ItemName, Text),
    /// The paginator of an item.
    Paginator(ItemName),
    /// A variable of the site.
    SiteVar(Text),
    /// What stands in the data under these keys.
    Data(List),
    /// A layout, by its name.
    Layout(Text),
    /// The text of an include, by its name.
    Include(Text),
    /// The text of a held file.
    File(SitePath),
    /// The URL of what is made of a source file.
    Link(SitePath),
    /// The URL of a post, by its name.
    Post(Text),
    /// The moment of the build.
    Moment,
}

impl Key {
    /// An equal key. Of texts and paths that can be shared it is a further holder.
    pub fn copy(&self, alloc: Global) -> Result<Key, Memory>
        ensures { IfOk result (λ key. key ≡ self.now) }
    {
        match self {
            Key::Source(name) => Ok(Key::Source(name.copy(alloc)?)),
            Key::Content(name) => Ok(Key::Content(name.copy(alloc)?)),
            Key::Output(name) => Ok(Key::Output(name.copy(alloc)?)),
            Key::Var(name, variable) => Ok(Key::Var(name.copy(alloc)?, variable.share(alloc)?)),
            Key::Paginator(name) => Ok(Key::Paginator(name.copy(alloc)?)),
            Key::SiteVar(variable) => Ok(Key::SiteVar(variable.share(alloc)?)),
            Key::Data(keys) => Ok(Key::Data(keys.share(alloc)?)),
            Key::Layout(name) => Ok(Key::Layout(name.share(alloc)?)),
            Key::Include(name) => Ok(Key::Include(name.share(alloc)?)),
            Key::File(path) => Ok(Key::File(path.copy(alloc)?)),
            Key::Link(path) => Ok(Key::Link(path.copy(alloc)?)),
            Key::Post(name) => Ok(Key::Post(name.share(alloc)?)),
            Key::Moment => Ok(Key::Moment),
        }
    }
}

// What a key is made of.
impl Key {
    ghost use Rattle.read_record.specs.Keys.{parts_of};

    fn kind(&self) -> u8
        ensures { result ≡ (parts_of self.now).kind }
    {
        match self {
            Key::Source(_) => 0,
            Key::Content(_) => 1,
            Key::Output(_) => 2,
            Key::Var(_, _) => 3,
            Key::Paginator(_) => 4,
            Key::SiteVar(_) => 5,
            Key::Data(_) => 6,
            Key::Layout(_) => 7,
            Key::Include(_) => 8,
            Key::File(_) => 9,
            Key::Link(_) => 10,
            Key::Post(_) => 11,
            Key::Moment => 12,
        }
    }

    // The path of the item.
    fn path(&self) -> &[u8]
        ensures { result.now ≡ (parts_of self.now).path }
    {
        match self {
            Key::Source(name) => name.path.as_bytes(),
            Key::Content(name) => name.path.as_bytes(),
            Key::Output(name) => name.path.as_bytes(),
            Key::Var(name, _) => name.path.as_bytes(),
            Key::Paginator(name) => name.path.as_bytes(),
            _ => b"",
        }
    }

    fn part(&self) -> u32
        ensures { result ≡ (parts_of self.now).part }
    {
        match self {
            Key::Source(name) => name.part,
            Key::Content(name) => name.part,
            Key::Output(name) => name.part,
            Key::Var(name, _) => name.part,
            Key::Paginator(name) => name.part,
            _ => 0,
        }
    }

    // The name, or the path of a file.
    fn words(&self) -> &[u8]
        ensures { result.now ≡ (parts_of self.now).words }
    {
        match self {
            Key::Var(_, variable) => variable.as_bytes(),
            Key::SiteVar(variable) => variable.as_bytes(),
            Key::Layout(name) => name.as_bytes(),
            Key::Include(name) => name.as_bytes(),
            Key::File(path) => path.as_bytes(),
            Key::Link(path) => path.as_bytes(),
            Key::Post(name) => name.as_bytes(),
            _ => b"",
        }
    }

    // The keys of the data.
    fn keys(&self) -> &[Value]
        ensures { items_of result.now ≡ (parts_of self.now).keys }
    {
        match self {
            Key::Data(keys) => keys.as_slice(),
            _ => &[],
        }
    }
}

impl PartialEq for Key {
    ghost use Rattle.std.specs.Cmp.{partial_equiv_from_equiv};
    ghost use Rattle.read_record.specs.Keys.{same_key};
    ghost use Rattle.read_record.specs.SameKeys.{same_key-equiv};

    ghost eq = { same_key };

    ghost laws = { partial_equiv_from_equiv same_key-equiv };

    fn eq(&self, other: &Self) -> bool {
        if self.kind() != other.kind() {
            return false;
        }
        if self.path() != other.path() {
            return false;
        }
        if self.part() != other.part() {
            return false;
        }
        if self.words() != other.words() {
            return false;
        }
        are_same(self.keys(), other.keys())
    }
}

impl Eq for Key {
    ghost use Rattle.read_record.specs.SameKeys.{same_key-equiv};

    ghost laws = { same_key-equiv };
}

impl Hash for Key {
    ghost use Rattle.read_record.specs.Keys.{key_writes};
    ghost use Rattle.read_record.specs.SameKeys.{key_writes-same};

    ghost hash_input = { key_writes };

    ghost respects_eq = { key_writes-same };

    fn hash<H: Hasher>(&self, state: &mut H) {
        state.write_u8(self.kind());
        state.write(self.path());
        state.write_u32(self.part());
        state.write(self.words());
        write_texts(self.keys(), state);
    }
}

fn are_same(left: &[Value], right: &[Value]) -> bool
    ensures { IsTrue result ↔ (items_of left.now ≡ items_of right.now) }
{
    if left.len() != right.len() {
        return false;
    }
    for (place, value) in left.iter().enumerate() {
        if !equals(value, &right[place]) {
            return false;
        }
    }
    true
}

fn write_texts<H: Hasher>(values: &[Value], state: &mut H)
    ensures { state.new ≡ fold H.write state.old (item_writes (items_of values.now)) }
{
    for value in values {
        if let Value::Text(text) = value {
            state.write(text.as_bytes());
        }
    }
}
