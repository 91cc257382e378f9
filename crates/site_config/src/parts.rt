// The parts of a configuration that take memory, a few fields at a time.
ghost use Rattle.std.specs.Prelude.{◌≡◌, IfOk};
ghost use Rattle.site_config.specs.Forms.{given};
ghost use Rattle.site_config.specs.Parts.{addresses, choices, documents, breaks, generated};

use crate::collections::read_collections;
use crate::reading::{INCLUDED, KEPT, excluded, flag, optional_text, text_or, texts_or};
use crate::scopes::read_scopes;
use crate::settings::setting;
use crate::{Collection, Scope};
use site_base::{Memory, Sequence, Text, TextList, Value};
use std::alloc::Global;

/// What URLs are made of, and whose pages are Markdown.
#[derive(Drop)]
pub(crate) struct Addresses {
    pub baseurl: Text,
    pub url: Text,
    pub permalink: Text,
    pub markdown_ext: Text,
}

/// Which files are taken, and which outputs stay.
#[derive(Drop)]
pub(crate) struct Choices {
    pub include: TextList,
    pub exclude: TextList,
    pub keep_files: TextList,
}

/// The collections, and values for items.
#[derive(Drop)]
pub(crate) struct Documents {
    pub collections: Sequence<Collection>,
    pub defaults: Sequence<Scope>,
}

/// Where posts are broken off.
#[derive(Drop)]
pub(crate) struct Breaks {
    pub paginate_path: Text,
    pub excerpt_separator: Text,
}

/// Which pages are generated besides those of a pagination.
#[derive(Drop)]
pub(crate) struct Generated {
    pub make_archives: TextList,
    pub archive_layout: Option<Text>,
    pub make_feed: bool,
    pub make_sitemap: bool,
}

impl Addresses {
    pub(crate) fn read(alloc: Global, all: Option<&Value>) -> Result<Addresses, Memory>
        ensures { IfOk result (λ made. made ≡ addresses (given all.entry)) }
    {
        let extensions = "markdown,mkdown,mkdn,mkd,md";
        Ok(Addresses {
            baseurl: text_or(alloc, "", setting("baseurl", all))?,
            url: text_or(alloc, "", setting("url", all))?,
            permalink: text_or(alloc, "date", setting("permalink", all))?,
            markdown_ext: text_or(alloc, extensions, setting("markdown_ext", all))?,
        })
    }
}

impl Choices {
    pub(crate) fn read(alloc: Global, all: Option<&Value>) -> Result<Choices, Memory>
        ensures { IfOk result (λ made. made ≡ choices (given all.entry)) }
    {
        Ok(Choices {
            include: texts_or(alloc, &INCLUDED, setting("include", all))?,
            exclude: excluded(alloc, setting("exclude", all))?,
            keep_files: texts_or(alloc, &KEPT, setting("keep_files", all))?,
        })
    }
}

impl Documents {
    pub(crate) fn read(alloc: Global, all: Option<&Value>) -> Result<Documents, Memory>
        ensures { IfOk result (λ made. made ≡ documents (given all.entry)) }
    {
        Ok(Documents {
            collections: read_collections(alloc, setting("collections", all))?,
            defaults: read_scopes(alloc, setting("defaults", all))?,
        })
    }
}

impl Breaks {
    pub(crate) fn read(alloc: Global, all: Option<&Value>) -> Result<Breaks, Memory>
        ensures { IfOk result (λ made. made ≡ breaks (given all.entry)) }
    {
        Ok(Breaks {
            paginate_path: text_or(alloc, "/page:num", setting("paginate_path", all))?,
            excerpt_separator: text_or(alloc, "\n\n", setting("excerpt_separator", all))?,
        })
    }
}

impl Generated {
    pub(crate) fn read(alloc: Global, all: Option<&Value>) -> Result<Generated, Memory>
        ensures { IfOk result (λ made. made ≡ generated (given all.entry)) }
    {
        Ok(Generated {
            make_archives: texts_or(alloc, &[], setting("make_archives", all))?,
            archive_layout: optional_text(alloc, setting("archive_layout", all))?,
            make_feed: flag(setting("make_feed", all)),
            make_sitemap: flag(setting("make_sitemap", all)),
        })
    }
}
