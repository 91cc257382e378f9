// Sitemaps.
ghost use Rattle.std.specs.Prelude.{◌≡◌, ◌++◌, false, IfOk, OnOk};
ghost use Rattle.std.specs.String.{string_bytes};
ghost use Rattle.site_text.specs.Urls.{url_byte, url_text};
ghost use Rattle.feed_pages.specs.Located.{has_brace, located};
ghost use Rattle.feed_pages.specs.Sitemap.{PagesRise, address_of, addresses, map_head, sitemap, url_line};

use permalinks::push_path;
use site_base::{Memory, Sequence, SitePath, Text};
use site_text::{push_percent, stands_in_urls};
use std::alloc::{AllocError, Global};

/// A page that a sitemap lists.
#[derive(Drop)]
pub struct MapPage {
    /// The path of its output.
    pub dest: SitePath,
    pub url: Text,
}

/// Pages in byte order of their destinations, which differ.
pub type MapPages = Sequence<MapPage>;

/// The text of a sitemap (the Sitemaps protocol, schema 0.9), which lists each of the pages once, in their order, and nothing
/// besides. `base` is what stands in front of each URL, as `front` of permalinks gives it. There is no `{` in the text, so a
/// template with this text gives it as it is.
pub fn sitemap_body(alloc: Global, base: &str, pages: &MapPages) -> Result<Text, Memory>
    requires rise { PagesRise pages.now }
    ensures is { IfOk result (λ body. body ≡ sitemap base.now pages.now) }
    ensures lists { IfOk result (λ body. located body ≡ addresses base.now pages.now) }
    ensures plain { IfOk result (λ body. has_brace body ≡ false) }
{
    let mut body = String::new(alloc);
    push_head(&mut body)?;
    for page in pages.as_slice() {
        push_line(alloc, &mut body, base, page)?;
    }
    body.push_str("</urlset>\n")?;
    Text::from_string(body)
}

fn push_head(body: &mut String) -> Result<(), AllocError>
    ensures text { OnOk result (string_bytes body.new ≡ string_bytes body.old ++ map_head) }
    ensures plain { OnOk result (has_brace (string_bytes body.new) ≡ has_brace (string_bytes body.old)) }
{
    body.push_str(
        "<?xml version=\"1.0\" encoding=\"utf-8\"?>\n<urlset xmlns=\"http://www.sitemaps.org/schemas/sitemap/0.9\">\n",
    )
}

// Adds the line of a page.
fn push_line(alloc: Global, body: &mut String, base: &str, page: &MapPage) -> Result<(), Memory>
    ensures text { OnOk result (string_bytes body.new ≡ string_bytes body.old ++ url_line (address_of base.now page.now)) }
    ensures plain { OnOk result (has_brace (string_bytes body.new) ≡ has_brace (string_bytes body.old)) }
{
    let mut address = Text::copy(alloc, base)?;
    push_path(&mut address, page.url.as_str())?;
    push_address(body, address.as_str())?;
    Ok(())
}

fn push_address(body: &mut String, address: &str) -> Result<(), AllocError>
    ensures text { OnOk result (string_bytes body.new ≡ string_bytes body.old ++ url_line (url_text address.now)) }
    ensures plain { OnOk result (has_brace (string_bytes body.new) ≡ has_brace (string_bytes body.old)) }
{
    body.push_str("<url><loc>")?;
    push_url(body, address)?;
    body.push_str("</loc></url>\n")
}

// Adds an address as it stands in HTML, and so in XML.
fn push_url(text: &mut String, url: &str) -> Result<(), AllocError>
    ensures text { OnOk result (string_bytes text.new ≡ string_bytes text.old ++ url_text url.now) }
    ensures plain { OnOk result (has_brace (string_bytes text.new) ≡ has_brace (string_bytes text.old)) }
{
    for byte in url.as_bytes() {
        push_byte(text, *byte)?;
    }
    Ok(())
}

fn push_byte(text: &mut String, byte: u8) -> Result<(), AllocError>
    ensures text { OnOk result (string_bytes text.new ≡ string_bytes text.old ++ url_byte byte) }
    ensures plain { OnOk result (has_brace (string_bytes text.new) ≡ has_brace (string_bytes text.old)) }
{
    if !stands_in_urls(byte) {
        push_percent(text, byte)
    } else if byte == b'&' {
        text.push_str("&amp;")
    } else {
        text.push(byte as char)
    }
}
