// What a configuration says.
use crate::{Collection, Scope};
use site_base::{Hash, Sequence, Text, TextList};

/// A site's configuration: a field for each key that has a meaning, with its default where the key is absent or
/// nil.
#[derive(Drop)]
pub struct Config {
    /// What stands in front of every URL's path; empty by default.
    pub baseurl: Text,
    /// The site's own address; empty by default.
    pub url: Text,
    /// `date` by default, `pretty`, `ordinal`, `none`, or a template.
    pub permalink: Text,
    /// The extensions of Markdown, between commas: `markdown,mkdown,mkdn,mkd,md` by default.
    pub markdown_ext: Text,
    /// Paths that are taken though hidden: `.htaccess` by default.
    pub include: TextList,
    /// Paths that are left out, behind those that always are.
    pub exclude: TextList,
    /// Paths of the output that are not removed: `.git` and `.svn` by default.
    pub keep_files: TextList,
    /// The collections, `posts` first, each name once.
    pub collections: Sequence<Collection>,
    /// Values for items, by their path and type; none by default.
    pub defaults: Sequence<Scope>,
    /// Posts on a page, at least 1; off by default.
    pub paginate: Option<u64>,
    /// A path that holds `:num`; `/page:num` by default.
    pub paginate_path: Text,
    /// What ends an excerpt: a blank line by default, never empty.
    pub excerpt_separator: Text,
    /// The offset from UTC in seconds; 0 by default.
    pub timezone: i32,
    /// Whether documents of the future are built; `false` by default.
    pub future: bool,
    /// Whether unpublished items are built; `false` by default.
    pub unpublished: bool,
    /// Whether drafts are built; `false` by default.
    pub show_drafts: bool,
    /// The lists of labels, `tags` and `categories`, whose labels have a page each; none by default.
    pub make_archives: TextList,
    /// The layout of these pages; none by default.
    pub archive_layout: Option<Text>,
    /// Whether a feed of the newest posts is made; `false` by default.
    pub make_feed: bool,
    /// Whether a sitemap is made; `false` by default.
    pub make_sitemap: bool,
    /// The whole mapping.
    pub all: Hash,
}
