// What the world of a site finds under each key.
ghost use Rattle.std.specs.Prelude.{◌≡◌};
ghost use Rattle.std.specs.FinMap.{get};
ghost use Rattle.std.specs.Option.{option_copied, option_map};
ghost use Rattle.site_base.specs.View.{plain};
ghost use Rattle.site_config.specs.Forms.{given};
ghost use Rattle.read_record.specs.Queries.{Known};
ghost use Rattle.site_world.specs.Finds.{reply_of};
ghost use Rattle.site_world.specs.Sights.{address, body_of, content_of, copy_at, done_content, done_output, file_text, include_named, layout_named, or_nil, output_of, paginator_of, placed, post_named, site_sight, source_at, under, url_of, variable_named, variable_of};

use crate::SiteWorld;
use crate::coded::Coded;
use crate::found::Found;
use crate::members::{setting, under};
use read_record::{Finished, Key, Outcome};
use site_base::{ItemName, List, SitePath, Text, Value};
use site_reader::SiteItem;

impl<'a> SiteWorld<'a> {
    /// What a key finds, where the outcomes of these items are known.
    pub(crate) fn find<'w, F: Finished>(&'w self, reader: u32, key: &Key, outs: &'w F) -> Found<'w>
        ensures { reply_of result ≡ site_sight self.now.held.now self.now.site.now reader (F.outcomes outs.now) key.now }
    {
        match key {
            Key::Source(name) => self.body(name),
            Key::Content(name) => self.content(reader, name, outs),
            Key::Output(name) => self.output(reader, name, outs),
            Key::Var(name, variable) => self.variable(name, variable),
            Key::Paginator(name) => self.paginator(name),
            Key::SiteVar(name) => self.site_variable(name),
            Key::Data(keys) => self.data(keys),
            Key::Layout(name) => self.layout(name),
            Key::Include(name) => self.include(name),
            Key::File(path) => self.file(path),
            Key::Link(path) => self.link(path),
            Key::Post(name) => self.post(name),
            Key::Moment => Found::Number(self.site.moment),
        }
    }

    // The item with a name, with its place.
    fn placed(&self, name: &ItemName) -> Option<(u32, &SiteItem)>
        ensures { option_map (λ p. (p.0, p.1.now)) result ≡ placed name.now self.now.site.now.items }
    {
        match self.places.find(name) {
            Some(place) => Some((place, self.site.items.at(u64::from(place)))),
            None => None,
        }
    }

    fn body(&self, name: &ItemName) -> Found<'_>
        ensures { reply_of result ≡ Known (body_of (placed name.now self.now.site.now.items)) }
    {
        match self.placed(name) {
            Some((_, item)) => Found::Words(&item.body),
            None => Found::Nothing,
        }
    }

    fn content<'w, F: Finished>(&'w self, reader: u32, name: &ItemName, outs: &'w F) -> Found<'w>
        ensures { reply_of result ≡ content_of reader (F.outcomes outs.now) (placed name.now self.now.site.now.items) }
    {
        match self.placed(name) {
            Some((place, _)) if place < reader => done_content(place, outs),
            Some((_, item)) => Found::Words(&item.body),
            None => Found::Nothing,
        }
    }

    fn output<'w, F: Finished>(&'w self, reader: u32, name: &ItemName, outs: &'w F) -> Found<'w>
        ensures { reply_of result ≡ output_of reader (F.outcomes outs.now) (placed name.now self.now.site.now.items) }
    {
        match self.placed(name) {
            Some((place, _)) if place < reader => done_output(place, outs),
            _ => Found::Nothing,
        }
    }

    fn variable(&self, name: &ItemName, variable: &Text) -> Found<'_>
        ensures { reply_of result ≡ Known (variable_of variable.now (placed name.now self.now.site.now.items)) }
    {
        match self.placed(name) {
            Some((_, item)) => given(setting(variable.as_str(), Some(&item.vars))),
            None => Found::Nothing,
        }
    }

    fn paginator(&self, name: &ItemName) -> Found<'_>
        ensures { reply_of result ≡ Known (paginator_of (placed name.now self.now.site.now.items)) }
    {
        match self.placed(name) {
            Some((_, item)) => Found::Given(&item.paginator),
            None => Found::Nothing,
        }
    }

    fn site_variable(&self, name: &Text) -> Found<'_>
        ensures { reply_of result ≡ Known (or_nil (variable_named name.now self.now.site.now)) }
    {
        kept(self.variables.as_ref().find(name.as_str()))
    }

    // The whole data tree is kept with its code; what stands in it is made to none.
    fn data(&self, keys: &List) -> Found<'_>
        ensures { reply_of result ≡ Known (under keys.now (plain self.now.site.now.data_tree)) }
    {
        match keys.as_slice() {
            [] => Found::Kept(&self.data_tree),
            keys => given(under(keys, Some(self.data_tree.value()))),
        }
    }

    fn layout(&self, name: &Text) -> Found<'_>
        ensures { reply_of result ≡ Known (or_nil (layout_named name.now self.now.site.now.layouts)) }
    {
        kept(self.layouts.find(name.as_str()))
    }

    fn include(&self, name: &Text) -> Found<'_>
        ensures { reply_of result ≡ Known (or_nil (include_named name.now self.now.site.now.includes)) }
    {
        kept(self.includes.find(name.as_str()))
    }

    fn file(&self, path: &SitePath) -> Found<'_>
        ensures { reply_of result ≡ Known (file_text (get self.now.held.now path.now)) }
    {
        match self.held.get_shared(path) {
            Some(bytes) => Found::File(bytes),
            None => Found::Nothing,
        }
    }

    fn link(&self, path: &SitePath) -> Found<'_>
        ensures { reply_of result ≡ Known (address (url_of path.now self.now.site.now)) }
    {
        match self.source(path) {
            Some(item) => Found::Words(&item.url),
            None => self.copy_link(path),
        }
    }

    // The item that the file at a path is itself.
    fn source(&self, path: &SitePath) -> Option<&SiteItem>
        ensures { option_copied result ≡ source_at path.now self.now.site.now.items }
    {
        match self.places.find_file(path) {
            Some(place) => Some(self.site.items.at(u64::from(place))),
            None => None,
        }
    }

    fn copy_link(&self, path: &SitePath) -> Found<'_>
        ensures { reply_of result ≡ Known (address (option_map (λ copy. copy.url) (copy_at path.now self.now.site.now.statics))) }
    {
        match self.copies.find(path.text()) {
            Some(copy) => Found::Words(&copy.url),
            None => Found::Nothing,
        }
    }

    fn post(&self, name: &Text) -> Found<'_>
        ensures { reply_of result ≡ Known (address (option_map (λ item. item.url) (post_named name.now self.now.site.now.items))) }
    {
        match self.posts.find(name.as_str()) {
            Some(item) => Found::Words(&item.url),
            None => Found::Nothing,
        }
    }
}

fn done_content<F: Finished>(place: u32, outs: &F) -> Found<'_>
    ensures { reply_of result ≡ done_content place (F.outcomes outs.now place) }
{
    match outs.done(place) {
        Some(Outcome::Done { content, output: _ }) => Found::Words(content),
        Some(Outcome::Fault(_)) => Found::Needs(place),
        None => Found::Needs(place),
    }
}

fn done_output<F: Finished>(place: u32, outs: &F) -> Found<'_>
    ensures { reply_of result ≡ done_output place (F.outcomes outs.now place) }
{
    match outs.done(place) {
        Some(Outcome::Done { content: _, output }) => Found::Words(output),
        Some(Outcome::Fault(_)) => Found::Needs(place),
        None => Found::Needs(place),
    }
}

fn kept(value: Option<&Coded>) -> Found<'_>
    ensures { reply_of result ≡ Known (or_nil (option_copied value.entry)) }
{
    match value {
        Some(value) => Found::Kept(value),
        None => Found::Nothing,
    }
}

fn given(value: Option<&Value>) -> Found<'_>
    ensures { reply_of result ≡ Known (given value.entry) }
{
    match value {
        Some(value) => Found::Given(value),
        None => Found::Nothing,
    }
}
