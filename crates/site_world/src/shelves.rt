// What many items look up, made once.
ghost use Rattle.std.specs.Prelude.{◌≡◌, ℕ, List, All, IfOk, OnOk, Some, None, codes, true, if◌then◌else◌};
ghost use Rattle.std.specs.List.{list_all};
ghost use Rattle.std.specs.Option.{option_or};
ghost use Rattle.std.specs.Str.{bytes_eq};
ghost use Rattle.read_record.specs.Forms.{is_layout};
ghost use Rattle.site_base.specs.Plain.{get, hash, pair, no_pairs, text};
ghost use Rattle.site_base.specs.View.{plain, pairs_of};
ghost use Rattle.site_reader.specs.Lawful.{HasHash};
ghost use Rattle.site_world.specs.Shelves.{shelved};
ghost use Rattle.site_world.specs.Sights.{include_named, layout_named, layout_value, variable_named};

use crate::coded::Coded;
use crate::shelf::Shelf;
use site_base::{Hash, Memory, Pair, Text, Value, copy};
use site_items::{IncludeFile, LayoutFile};
use site_reader::Site;
use site_variables::site_variables;
use std::alloc::Global;

/// The layouts as values, by their names.
pub(crate) fn layouts(alloc: Global, layouts: &[LayoutFile]) -> Result<Shelf, Memory>
    requires { All HasHash layouts.now }
    ensures are { IfOk result (λ made. (x : List ℕ) → shelved made x ≡ layout_named x layouts.now) }
    ensures formed { IfOk result (λ _. list_all (λ layout. is_layout (layout_value layout)) layouts.now ≡ true) }
{
    let mut made = Shelf::new(alloc);
    for layout in layouts {
        add_layout(alloc, &mut made, layout)?;
    }
    Ok(made)
}

fn add_layout(alloc: Global, made: &mut Shelf, layout: &LayoutFile) -> Result<(), Memory>
    requires { HasHash layout.now }
    ensures added { OnOk result ((x : List ℕ) → shelved made.new x ≡ option_or (shelved made.old x) (if bytes_eq layout.now.name x then Some (layout_value layout.now) else None)) }
    ensures formed { OnOk result (is_layout (layout_value layout.now) ≡ true) }
{
    has_form(layout);
    let value = layout_value(alloc, layout)?;
    made.add(alloc, layout.name.as_str(), Coded::new(alloc, value)?)
}

// That a layout has the form in which it is looked up.
fn has_form(layout: &LayoutFile)
    requires { HasHash layout.now }
    ensures { is_layout (layout_value layout.now) ≡ true }
{
    let _ = layout.path.text();
}

fn layout_value(alloc: Global, layout: &LayoutFile) -> Result<Value, Memory>
    ensures { IfOk result (λ made. plain made ≡ layout_value layout.now) }
{
    let mut made = Hash::with_capacity(alloc, 3)?;
    made.push(Text::copy(alloc, "path")?, path_value(alloc, layout)?)?;
    made.push(Text::copy(alloc, "vars")?, copy(alloc, &layout.vars)?)?;
    made.push(
        Text::copy(alloc, "body")?,
        Value::Text(layout.body.share(alloc)?),
    )?;
    Ok(Value::Hash(made))
}

fn path_value(alloc: Global, layout: &LayoutFile) -> Result<Value, Memory>
    ensures { IfOk result (λ made. plain made ≡ text layout.now.path) }
{
    Ok(Value::Text(layout.path.to_text(alloc)?))
}

/// The texts of the includes, by their names.
pub(crate) fn includes(alloc: Global, includes: &[IncludeFile]) -> Result<Shelf, Memory>
    ensures { IfOk result (λ made. (x : List ℕ) → shelved made x ≡ include_named x includes.now) }
{
    let mut made = Shelf::new(alloc);
    for include in includes {
        add_include(alloc, &mut made, include)?;
    }
    Ok(made)
}

fn add_include(alloc: Global, made: &mut Shelf, include: &IncludeFile) -> Result<(), Memory>
    ensures { OnOk result ((x : List ℕ) → shelved made.new x ≡ option_or (shelved made.old x) (if bytes_eq include.now.name x then Some (text include.now.body) else None)) }
{
    let value = Value::Text(include.body.share(alloc)?);
    made.add(alloc, include.name.as_str(), Coded::new(alloc, value)?)
}

/// The values of a hash, by their names.
pub(crate) fn shelf_of(alloc: Global, pairs: &[Pair]) -> Result<Shelf, Memory>
    ensures { IfOk result (λ made. (x : List ℕ) → shelved made x ≡ get x (pairs_of pairs.now)) }
{
    let mut made = Shelf::new(alloc);
    for pair in pairs {
        add_pair(alloc, &mut made, pair)?;
    }
    Ok(made)
}

fn add_pair(alloc: Global, made: &mut Shelf, pair: &Pair) -> Result<(), Memory>
    ensures { OnOk result ((x : List ℕ) → shelved made.new x ≡ option_or (shelved made.old x) (if bytes_eq pair.now.key x then Some (plain pair.now.value) else None)) }
{
    let value = copy(alloc, &pair.value)?;
    made.add(alloc, pair.key.as_str(), Coded::new(alloc, value)?)
}

/// The variables of the site, by their names.
pub(crate) fn variables(alloc: Global, site: &Site) -> Result<Shelf, Memory>
    ensures { IfOk result (λ made. (x : List ℕ) → shelved made x ≡ variable_named x site.now) }
{
    let variables = site_variables(alloc, site)?;
    shelf_of(alloc, variables.as_slice())
}
