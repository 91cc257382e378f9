// What the placeholders of templates stand for.
ghost use Rattle.std.specs.Prelude.{◌≡◌, ◌++◌, IfOk, IfSome, OnOk, map};
ghost use Rattle.std.specs.Char.{to_ascii_lowercase};
ghost use Rattle.std.proofs.Props.{props};
ghost use Rattle.site_base.specs.Plain.{key_list};
ghost use Rattle.site_base.specs.View.{pairs_of};
ghost use Rattle.site_dates.specs.Moment.{IsMoment};
ghost use Rattle.site_dates.specs.Offset.{IsOffset};
ghost use Rattle.site_files.specs.Names.{file_name, stem};
ghost use Rattle.site_items.specs.Addresses.{behind_slash, collection_of, date_part, name_of, of_document, of_post, path_part, slashed};

use crate::addresses::Sought;
use crate::dates::date_part;
use crate::folders::path_part;
use crate::kind::Kind;
use permalinks::{Placeholder, Values, slugify};
use site_base::{Hash, Memory, Pair, Text};
use site_files::{file_name, stem};
use std::alloc::Global;

/// An item whose URL is made, with its slug and its categories.
#[derive(Clone, Copy)]
pub(crate) struct Named<'a> {
    pub item: &'a Sought<'a>,
    pub slug: &'a Text,
    pub categories: &'a Hash,
    ghost offset: { IsOffset item.now.config.now.timezone },
    ghost moment: { IfSome item.now.moment IsMoment } by { Prim.hlevel props },
}

impl Values for Named<'_> {
    ghost use Rattle.site_items.specs.Seeking.{placeholders};

    ghost stands_for = { λ named. placeholders named.item.now named.slug.now (key_list named.categories.now) };

    fn value(&self, alloc: Global, placeholder: Placeholder) -> Result<Option<Text>, Memory> {
        match placeholder {
            Placeholder::Year => self.date_part(alloc, "%Y"),
            Placeholder::Month => self.date_part(alloc, "%m"),
            Placeholder::Day => self.date_part(alloc, "%d"),
            Placeholder::IMonth => self.date_part(alloc, "%-m"),
            Placeholder::IDay => self.date_part(alloc, "%-d"),
            Placeholder::ShortYear => self.date_part(alloc, "%y"),
            Placeholder::YDay => self.date_part(alloc, "%j"),
            Placeholder::Hour => self.date_part(alloc, "%H"),
            Placeholder::Minute => self.date_part(alloc, "%M"),
            Placeholder::Second => self.date_part(alloc, "%S"),
            Placeholder::Title => Ok(self.of_document(self.slug.share(alloc)?)),
            Placeholder::Slug => Ok(self.of_document(slugify(alloc, self.slug.as_str())?)),
            Placeholder::Categories => Ok(self.of_post(slashed(alloc, self.categories)?)),
            Placeholder::Name => Ok(Some(slugify(alloc, self.name())?)),
            Placeholder::Basename => Ok(Some(Text::copy(alloc, self.name())?)),
            Placeholder::Path => Ok(Some(Text::copy(alloc, self.path_part())?)),
            Placeholder::Collection => Ok(self.of_document(Text::copy(
                alloc,
                self.collection_name(),
            )?)),
            Placeholder::OutputExt => Ok(Some(Text::copy(alloc, self.item.ext)?)),
        }
    }
}

impl Named<'_> {
    fn date_part(&self, alloc: Global, pattern: &str) -> Result<Option<Text>, Memory>
        ensures { IfOk result (λ text. text ≡ date_part self.now.item.now.config.now.timezone self.now.item.now.moment pattern.now) }
    {
        date_part(alloc, self.item.config.timezone, self.item.moment, pattern)
    }

    // The file name without its extension.
    fn name(&self) -> &str
        ensures { result.now ≡ stem (file_name self.now.item.now.path.now) }
    {
        stem(file_name(self.item.path.text()))
    }

    fn path_part(&self) -> &str
        ensures { result.now ≡ path_part self.now.item.now.config.now self.now.item.now.kind self.now.item.now.path.now }
    {
        path_part(self.item.config, self.item.kind, self.item.path.text())
    }

    fn collection_name(&self) -> &str
        ensures { result.now ≡ name_of (collection_of self.now.item.now.config.now self.now.item.now.kind) }
    {
        self.item.kind.collection_name(self.item.config)
    }

    // What documents alone have.
    fn of_document(&self, text: Text) -> Option<Text>
        ensures { result ≡ of_document self.now.item.now.kind text }
    {
        match self.item.kind {
            Kind::Page => None,
            _ => Some(text),
        }
    }

    // What posts alone have.
    fn of_post(&self, text: Text) -> Option<Text>
        ensures { result ≡ of_post self.now.item.now.kind text }
    {
        if self.item.kind.is_post() {
            Some(text)
        } else {
            None
        }
    }
}

// The keys of a hash in ASCII lower case, with `/` between them.
fn slashed(alloc: Global, names: &Hash) -> Result<Text, Memory>
    ensures { IfOk result (λ text. text ≡ slashed (key_list names.now)) }
{
    let mut text = Text::new(alloc);
    match names.as_slice() {
        [] => (),
        [first, rest @ ..] => {
            push_lower(alloc, &mut text, first.key.as_str())?;
            push_behind_slashes(alloc, &mut text, rest)?;
        }
    }
    Ok(text)
}

fn push_behind_slashes(alloc: Global, text: &mut Text, names: &[Pair]) -> Result<(), Memory>
    ensures { OnOk result (text.new ≡ text.old ++ behind_slash (key_list (pairs_of names.now))) }
{
    for pair in names {
        text.push_str("/")?;
        push_lower(alloc, text, pair.key.as_str())?;
    }
    Ok(())
}

fn push_lower(alloc: Global, text: &mut Text, name: &str) -> Result<(), Memory>
    ensures { OnOk result (text.new ≡ text.old ++ map to_ascii_lowercase name.now) }
{
    text.push_str(name.to_ascii_lowercase(alloc)?.as_str())
}
