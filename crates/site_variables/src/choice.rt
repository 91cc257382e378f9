// Which items of a site a list has.
ghost use Rattle.std.specs.Prelude.{◌≡◌, codes, nat_eq};
ghost use Rattle.std.specs.List.{ends_with};
ghost use Rattle.site_variables.specs.Choosing.{takes};
ghost use Rattle.site_items.specs.Extensions.{is_page_ext};
ghost use Rattle.site_variables.specs.Lists.{is_document, is_html, is_html_page, is_in};

use site_config::Config;
use site_files::{extension, file_name};
use site_items::output_ext;
use site_reader::SiteItem;

/// Which items of a site a list has.
#[derive(Clone, Copy)]
pub(crate) enum Choice {
    Posts,
    Pages,
    HtmlPages,
    Documents,
}

impl Choice {
    /// Whether the list has this item.
    pub(crate) fn takes(self, config: &Config, item: &SiteItem) -> bool
        ensures { result ≡ takes self config.now item.now }
    {
        match self {
            Choice::Posts => is_post(item),
            Choice::Pages => !is_document(config, item),
            Choice::HtmlPages => is_html_page(config, item),
            Choice::Documents => is_document(config, item),
        }
    }
}

/// Whether an item is a post: the posts are the first collection.
pub(crate) fn is_post(item: &SiteItem) -> bool
    ensures { result ≡ is_in 0 item.now }
{
    item.group == 0
}

fn is_document(config: &Config, item: &SiteItem) -> bool
    ensures { result ≡ is_document config.now item.now }
{
    item.group < config.collections.len()
}

fn is_html_page(config: &Config, item: &SiteItem) -> bool
    ensures { result ≡ is_html_page config.now item.now }
{
    !is_document(config, item) && is_html(config, item)
}

// Whether its output is a page of HTML, by its extension or since it stands for a folder.
fn is_html(config: &Config, item: &SiteItem) -> bool
    ensures { result ≡ is_html config.now item.now }
{
    let own = extension(file_name(item.name.path.text()));
    is_page_ext(output_ext(config.markdown_ext.as_str(), own)) || is_folder(item.url.as_str())
}

/// Whether a URL stands for a folder.
pub(crate) fn is_folder(url: &str) -> bool
    ensures { result ≡ ends_with nat_eq url.now (codes "/") }
{
    url.ends_with("/")
}

fn is_page_ext(ext: &str) -> bool
    ensures { result ≡ is_page_ext ext.now }
{
    ext == ".html" || ext == ".xhtml" || ext == ".htm"
}
