// The names that an item has: slug, title, categories, tags.
ghost use Rattle.std.specs.Prelude.{◌≡◌, IfOk, OnOk};
ghost use Rattle.site_base.specs.Plain.{text};
ghost use Rattle.site_base.specs.View.{plain};
ghost use Rattle.site_config.specs.Forms.{given};
ghost use Rattle.site_dates.specs.Offset.{IsOffset};
ghost use Rattle.site_items.specs.Items.{categories, is_nil, kind_named, named, names_value, set_missing, slug_of, tags};

use crate::dates::title_part;
use crate::folders::add_folders;
use crate::kind::Kind;
use crate::labels::{add_many, add_one, name_list};
use crate::lookup::variable;
use crate::titles::title;
use site_base::{Hash, Memory, Text, Value, value_text};
use std::alloc::Global;

/// Gives a document a slug and a title where its variables have none.
pub(crate) fn set_names(
    alloc: Global,
    vars: &mut Hash,
    offset: i32,
    kind: Kind,
    name: &str,
) -> Result<(), Memory>
    requires { IsOffset offset }
    ensures { OnOk result (vars.new ≡ kind_named offset kind name.now vars.old) }
{
    if kind.is_page() {
        return Ok(());
    }
    set_document_names(alloc, vars, title_part(offset, kind, name))
}

fn set_document_names(alloc: Global, vars: &mut Hash, part: &str) -> Result<(), Memory>
    ensures { OnOk result (vars.new ≡ named part.now vars.old) }
{
    set_missing(alloc, vars, "slug", Text::copy(alloc, part)?)?;
    set_missing(alloc, vars, "title", title(alloc, part)?)
}

// Gives a variable this text where it is absent or nil.
fn set_missing(alloc: Global, vars: &mut Hash, name: &str, value: Text) -> Result<(), Memory>
    ensures { OnOk result (vars.new ≡ set_missing name.now (text value) vars.old) }
{
    if is_missing(variable(vars, name)) {
        return vars.set(Text::copy(alloc, name)?, Value::Text(value));
    }
    Ok(())
}

fn is_missing(value: Option<&Value>) -> bool
    ensures { result ≡ is_nil (given value.entry) }
{
    matches!(value, None | Some(Value::Nil))
}

/// The slug of a document, as text.
pub(crate) fn slug_of(alloc: Global, vars: &Hash) -> Result<Text, Memory>
    ensures { IfOk result (λ text. text ≡ slug_of vars.now) }
{
    match variable(vars, "slug") {
        Some(value) => value_text(alloc, value),
        None => Ok(Text::new(alloc)),
    }
}

/// The categories of a post: the folders above `_posts`, and those that its variables name, each once.
pub(crate) fn categories(alloc: Global, kind: Kind, path: &str, vars: &Hash) -> Result<Hash, Memory>
    ensures { IfOk result (λ names. names ≡ categories kind path.now vars.now) }
{
    let mut names = Hash::new(alloc);
    add_folders(alloc, &mut names, kind, path)?;
    add_one(alloc, &mut names, variable(vars, "category"))?;
    add_many(alloc, &mut names, variable(vars, "categories"))?;
    Ok(names)
}

/// The tags of a document, each once.
pub(crate) fn tags(alloc: Global, vars: &Hash) -> Result<Hash, Memory>
    ensures { IfOk result (λ names. names ≡ tags vars.now) }
{
    let mut names = Hash::new(alloc);
    add_one(alloc, &mut names, variable(vars, "tag"))?;
    add_many(alloc, &mut names, variable(vars, "tags"))?;
    Ok(names)
}

/// Names as a value.
pub(crate) fn names_value(alloc: Global, names: &Hash) -> Result<Value, Memory>
    ensures { IfOk result (λ value. plain value ≡ names_value names.now) }
{
    Ok(Value::List(name_list(alloc, names)?))
}
