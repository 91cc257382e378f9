// What is known of the blocks that follow at a level.
ghost use Rattle.std.specs.Prelude.{◌≡◌, ◌||◌, ◌&&◌, if◌then◌else◌};
ghost use Rattle.cm_blocks.specs.Making as spec;

use cm_containers::Container;

/// What is known of the blocks that follow inside a container, or outside of all: how many nodes were made
/// before them; whether there are none, blank lines too, or one blank line alone; whether a blank line
/// ends or starts them; whether there is a block; whether a blank line separates two blocks; and of the
/// list that comes next behind blank lines its mark, its first number, whether it is loose, and how many
/// nodes were made before it.
#[derive(Clone, Copy)]
pub(crate) struct Level {
    pub start: usize,
    pub is_empty: bool,
    pub is_blank: bool,
    pub ends_blank: bool,
    pub starts_blank: bool,
    pub has_block: bool,
    pub is_apart: bool,
    pub next: Option<char>,
    pub number: u32,
    pub is_loose: bool,
    pub list_start: usize,
}

impl Level {
    /// Nothing follows.
    pub fn new(start: usize) -> Level
        ensures { result ≡ spec.fresh start }
    {
        Level {
            start,
            is_empty: true,
            is_blank: false,
            ends_blank: false,
            starts_blank: false,
            has_block: false,
            is_apart: false,
            next: None,
            number: 0,
            is_loose: false,
            list_start: 0,
        }
    }

    /// With a blank line in front.
    pub fn behind_blank(self) -> Level
        ensures { result ≡ spec.blank_level self }
    {
        Level {
            is_empty: false,
            is_blank: self.is_empty,
            ends_blank: self.is_empty || self.ends_blank,
            starts_blank: true,
            ..self
        }
    }

    /// With a leaf or a quote in front, which has read blank lines at its end or not.
    pub fn behind_leaf(self, is_blank: bool) -> Level
        ensures { result ≡ spec.leaf_level is_blank self }
    {
        Level {
            start: self.start,
            is_empty: false,
            is_blank: false,
            ends_blank: self.end(is_blank),
            starts_blank: false,
            has_block: true,
            is_apart: self.separates(is_blank) || self.is_apart,
            next: None,
            number: 0,
            is_loose: false,
            list_start: 0,
        }
    }

    /// With an item in front, by what is known of its inside.
    pub fn behind_item(self, mark: char, number: u32, body: Level) -> Level
        ensures { result ≡ spec.item_level mark number body self }
    {
        let is_blank = body.ends_open();
        Level {
            start: self.start,
            is_empty: false,
            is_blank: false,
            ends_blank: self.end(is_blank),
            starts_blank: false,
            has_block: true,
            is_apart: !self.is_next(mark) && self.separates(is_blank) || self.is_apart,
            next: Some(mark),
            number,
            is_loose: self.is_loose_from(mark, body),
            list_start: self.list_start_at(mark, body),
        }
    }

    /// The same where the list that comes next is whole.
    pub fn without_list(self) -> Level
        ensures { result ≡ spec.unlisted self }
    {
        Level {
            next: None,
            is_loose: false,
            ..self
        }
    }

    // How many nodes were made before the list of an item in front.
    fn list_start_at(self, mark: char, body: Level) -> usize
        ensures { result ≡ (if spec.is_next mark self.next then self.list_start else body.start) }
    {
        if self.is_next(mark) {
            self.list_start
        } else {
            body.start
        }
    }

    // Whether an item of a list comes next.
    fn is_next(self, mark: char) -> bool
        ensures { result ≡ spec.is_next mark self.next }
    {
        match self.next {
            Some(next) => next == mark,
            None => false,
        }
    }

    // Whether a list is loose from an item in front on.
    fn is_loose_from(self, mark: char, body: Level) -> bool
        ensures { result ≡ spec.loose_from mark body self }
    {
        let goes_on = self.is_next(mark);
        body.is_apart
            || (goes_on && (body.ends_open() || self.starts_blank))
            || (goes_on && self.is_loose)
    }

    // Whether a blank line ends what is in front and what follows.
    fn end(self, is_blank: bool) -> bool
        ensures { result ≡ (if self.is_empty then is_blank else self.ends_blank) }
    {
        if self.is_empty {
            is_blank
        } else {
            self.ends_blank
        }
    }

    // Whether a blank line separates what is in front from the next block.
    fn separates(self, is_blank: bool) -> bool
        ensures { result ≡ ((is_blank || self.starts_blank) && self.has_block) }
    {
        (is_blank || self.starts_blank) && self.has_block
    }

    // Whether the last line of an item is blank, where it has more than its mark's line.
    fn ends_open(self) -> bool
        ensures { result ≡ spec.is_open_blank self }
    {
        !self.is_blank && self.ends_blank
    }
}

/// With a container in front, by what is known of its inside.
pub(crate) fn behind_container(held: Container, body: Level, rest: Level) -> Level
    ensures { result ≡ spec.container_level held body rest }
{
    match held {
        Container::Quote => rest.behind_leaf(false),
        Container::Item { mark, start, .. } => rest.behind_item(mark, start, body),
    }
}

/// Whether a container is an item of the list that comes next.
pub(crate) fn goes_with(held: Container, rest: Level) -> bool
    ensures { result ≡ spec.goes_with held rest }
{
    match held {
        Container::Quote => false,
        Container::Item { mark, .. } => rest.is_next(mark),
    }
}
