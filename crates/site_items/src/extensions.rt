// The extensions of outputs.
ghost use Rattle.std.specs.Prelude.{◌≡◌};
ghost use Rattle.site_items.specs.Extensions.{is_page_ext, output_ext};

use site_text::is_listed;

/// The extension of an output: `.html` where the file's is one of Markdown's, whose names stand between commas, and else the
/// file's own.
pub fn output_ext<'a>(markdown: &str, ext: &'a str) -> &'a str
    ensures { result.now ≡ output_ext markdown.now ext.entry.now }
{
    if is_listed(markdown.as_bytes(), ext.as_bytes()) {
        ".html"
    } else {
        ext
    }
}

pub(crate) fn is_page_ext(ext: &str) -> bool
    ensures { result ≡ is_page_ext ext.now }
{
    ext == ".html" || ext == ".xhtml" || ext == ".htm"
}
