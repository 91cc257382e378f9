// The kinds of items.
ghost use Rattle.std.specs.Prelude.{◌≡◌};
ghost use Rattle.std.specs.Option.{option_copied};
ghost use Rattle.site_items.specs.Addresses.{collection_of, has_output, is_page, is_post, name_of};
ghost use Rattle.site_items.specs.Defaults.{has_type};
ghost use Rattle.site_items.specs.Items.{is_draft};

use site_config::{Collection, Config};

/// What kind of item a file is.
#[derive(Clone, Copy, Debug, PartialEq, Eq)]
pub enum Kind {
    Page,
    /// A document of the first collection, below a folder `_posts`.
    Post,
    /// A document of the first collection, below `_drafts`.
    Draft,
    /// A document of the collection with this place in the configuration, from 0.
    Document(u64),
}

impl Kind {
    pub(crate) fn is_page(self) -> bool
        ensures { result ≡ is_page self }
    {
        matches!(self, Kind::Page)
    }

    pub(crate) fn is_post(self) -> bool
        ensures { result ≡ is_post self }
    {
        matches!(self, Kind::Post | Kind::Draft)
    }

    pub(crate) fn is_draft(self) -> bool
        ensures { result ≡ is_draft self }
    {
        matches!(self, Kind::Draft)
    }

    /// The collection of a document.
    pub(crate) fn collection(self, config: &Config) -> Option<&Collection>
        ensures { option_copied result ≡ collection_of config.now self }
    {
        match self {
            Kind::Page => None,
            Kind::Post | Kind::Draft => config.collections.as_slice().first(),
            Kind::Document(place) => config.collections.as_slice().get(place as usize),
        }
    }

    /// The name of a document's collection, and nothing for a page.
    pub(crate) fn collection_name(self, config: &Config) -> &str
        ensures { result.now ≡ name_of (collection_of config.now self) }
    {
        match self.collection(config) {
            Some(collection) => collection.name.as_str(),
            None => "",
        }
    }

    /// Whether a scope of `defaults` names such an item by this type. A draft is one of the posts, too.
    pub(crate) fn has_type(self, config: &Config, type_name: &str) -> bool
        ensures { result ≡ has_type config.now self type_name.now }
    {
        match self {
            Kind::Page => type_name == "pages",
            Kind::Draft => type_name == "drafts" || type_name == self.collection_name(config),
            _ => type_name == self.collection_name(config),
        }
    }

    /// Whether such an item is written.
    pub(crate) fn has_output(self, config: &Config) -> bool
        ensures { result ≡ has_output config.now self }
    {
        if self.is_page() {
            return true;
        }
        match self.collection(config) {
            Some(collection) => collection.output,
            None => false,
        }
    }
}
