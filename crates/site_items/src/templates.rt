// The templates of URLs.
ghost use Rattle.std.specs.Prelude.{◌≡◌, ◌++◌, IfOk, MatchResult, unwrap_or};
ghost use Rattle.site_config.specs.Forms.{given};
ghost use Rattle.site_items.specs.Addresses.{collection_of, collection_template, kind_template, page_template, site_end, style_template, template, template_end};
ghost use Rattle.site_items.specs.Outcomes.{IsFault};

use crate::extensions::is_page_ext;
use crate::item_error::{ItemError, config_fault};
use crate::kind::Kind;
use site_base::{Memory, Text, Value};
use site_config::Config;
use std::alloc::Global;

/// The template of an item's URL: its variable `permalink`, else its collection's template, else that of its kind.
///
/// `Config` comes exactly where the variable is neither nil nor a text.
pub(crate) fn template(
    alloc: Global,
    config: &Config,
    ext: &str,
    name: &str,
    kind: Kind,
    permalink: Option<&Value>,
) -> Result<Text, ItemError>
    ensures { MatchResult result
        (λ text. template config.now ext.now name.now kind (given permalink.entry) ≡ Ok text)
        (IsFault (template config.now ext.now name.now kind (given permalink.entry))) }
{
    match permalink {
        None | Some(Value::Nil) => Ok(default_template(alloc, config, ext, name, kind)?),
        Some(Value::Text(text)) => Ok(Text::copy(alloc, text.as_str())?),
        Some(_) => Err(config_fault()),
    }
}

fn default_template(
    alloc: Global,
    config: &Config,
    ext: &str,
    name: &str,
    kind: Kind,
) -> Result<Text, Memory>
    ensures { IfOk result (λ text. text ≡ unwrap_or (collection_template (collection_of config.now kind)) (kind_template config.now.permalink ext.now name.now kind)) }
{
    if let Some(collection) = kind.collection(config) {
        if let Some(own) = &collection.permalink {
            return Text::copy(alloc, own.as_str());
        }
    }
    kind_template(alloc, config.permalink.as_str(), ext, name, kind)
}

fn kind_template(
    alloc: Global,
    style: &str,
    ext: &str,
    name: &str,
    kind: Kind,
) -> Result<Text, Memory>
    ensures { IfOk result (λ text. text ≡ kind_template style.now ext.now name.now kind) }
{
    match kind {
        Kind::Page => page_template(alloc, style, ext, name),
        Kind::Post | Kind::Draft => Text::copy(alloc, style_template(style)),
        Kind::Document(_) => with_end(alloc, "/:collection/:path", style),
    }
}

// A page that is no HTML keeps its extension, and a page `index` is its folder.
fn page_template(alloc: Global, style: &str, ext: &str, name: &str) -> Result<Text, Memory>
    ensures { IfOk result (λ text. text ≡ page_template style.now ext.now name.now) }
{
    if !is_page_ext(ext) {
        return Text::copy(alloc, "/:path/:basename:output_ext");
    }
    if name == "index" {
        return Text::copy(alloc, "/:path/");
    }
    with_end(alloc, "/:path/:basename", style)
}

fn with_end(alloc: Global, front: &str, style: &str) -> Result<Text, Memory>
    ensures { IfOk result (λ text. text ≡ front.now ++ site_end style.now) }
{
    let mut text = Text::copy(alloc, front)?;
    text.push_str(template_end(style_template(style)))?;
    Ok(text)
}

// A style's template for posts; another text is a template itself.
fn style_template(style: &str) -> &str
    ensures { result.now ≡ style_template style.now }
{
    match style {
        "date" => "/:categories/:year/:month/:day/:title:output_ext",
        "pretty" => "/:categories/:year/:month/:day/:title/",
        "ordinal" => "/:categories/:year/:y_day/:title:output_ext",
        "none" => "/:categories/:title:output_ext",
        _ => style,
    }
}

// How URLs end that have no template of their own.
fn template_end(template: &str) -> &'static str
    ensures { result.now ≡ template_end template.now }
{
    if template.ends_with("/") {
        return "/";
    }
    if template.ends_with(":output_ext") {
        return ":output_ext";
    }
    ""
}
