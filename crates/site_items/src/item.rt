// Items of the site.
ghost use Rattle.std.specs.Prelude.{◌≡◌, IfOk, IfSome, MatchResult};
ghost use Rattle.site_dates.specs.Moment.{IsMoment};
ghost use Rattle.site_dates.specs.Offset.{IsOffset};
ghost use Rattle.site_items.specs.Items.{named_item};
ghost use Rattle.site_items.specs.Outcomes.{IsFault};
ghost use Rattle.site_items.specs.Seeking.{address_of, ruled_item, sought_item, template_of};

use crate::addresses::{Sought, dest_of, url_of};
use crate::extensions::output_ext;
use crate::file_content::FileContent;
use crate::item_error::ItemError;
use crate::kind::Kind;
use crate::lookup::variable;
use crate::names::{categories, set_names, slug_of};
use crate::placed_variables::set_variables;
use crate::templates::template;
use crate::timeless::Timeless;
use site_base::{Hash, Memory, SitePath, Text};
use site_config::{Config, Scope};
use site_files::{extension, file_name, stem};
use std::alloc::Global;

/// An item of the site, as its file makes it.
#[derive(Drop)]
pub struct Item {
    /// The moment of a document that has a date, in seconds from the beginning of 1970.
    pub moment: Option<i64>,
    pub url: Text,
    /// The path of its output, where it has one.
    pub dest: Option<SitePath>,
    /// Its variables, but for those that name its neighbours.
    pub vars: Hash,
    pub body: Text,
}

/// What holds for all items of a site.
#[derive(Clone, Copy)]
pub struct Rules<'a> {
    pub config: &'a Config,
    /// The configuration's scopes, by their strength.
    pub scopes: &'a [&'a Scope],
    /// The present moment, in seconds from the beginning of 1970.
    pub now: i64,
    /// Whether documents of a later moment are built.
    pub future: bool,
}

impl Item {
    /// The item that a file of a kind is; `None` where it is left out, since it is not published, or its date is later.
    /// Its body shares the bytes of the file, and its variables share its path.
    ///
    /// `Fault` comes exactly where the file has a fault before it is known to be left out, and names the first: it is no
    /// UTF-8 (`NotUtf8`), its front matter is no mapping (`Yaml`, with its line), its variable `published` is neither nil
    /// nor a bool (`Config`), `date` is neither nil nor a date (`BadDate`), `permalink` is neither nil nor a text, or a
    /// template whose placeholder has no value, or makes no path of a site (`Config`).
    pub fn read(
        alloc: Global,
        rules: &Rules,
        kind: Kind,
        path: &SitePath,
        content: &FileContent,
    ) -> Result<Option<Item>, ItemError>
        requires offset { IsOffset rules.now.config.now.timezone }
        requires now { IsMoment rules.now.now }
        ensures { let found = ruled_item rules.entry.now kind path.now content.now in
            MatchResult result (λ made. found ≡ Ok made) (IsFault found) }
    {
        Timeless::read(alloc, rules, kind, path, content)?.at(alloc, rules, kind, path)
    }

    /// An equal item. What can be shared is not copied.
    pub(crate) fn share(&self, alloc: Global) -> Result<Item, Memory>
        ensures { IfOk result (λ shared. shared ≡ self.now) }
    {
        Ok(Item {
            moment: self.moment,
            url: self.url.share(alloc)?,
            dest: match &self.dest {
                Some(path) => Some(path.copy(alloc)?),
                None => None,
            },
            vars: self.vars.share(alloc)?,
            body: self.body.share(alloc)?,
        })
    }

    /// The item, of which further holders take little more. Nothing is copied.
    pub(crate) fn into_shared(self) -> Result<Item, Memory>
        ensures { IfOk result (λ shared. shared ≡ self) }
    {
        Ok(Item {
            moment: self.moment,
            url: self.url.into_shared()?,
            dest: self.dest,
            vars: self.vars.into_shared()?,
            body: self.body.into_shared()?,
        })
    }
}

/// An item whose moment is known.
///
/// `Fault` comes exactly where its variable `permalink` is neither nil nor a text, or a template whose placeholder has no
/// value, or makes no path of a site (`Config`).
pub(crate) fn named_item(
    alloc: Global,
    config: &Config,
    kind: Kind,
    path: &SitePath,
    body: Text,
    mut vars: Hash,
    moment: Option<i64>,
) -> Result<Item, ItemError>
    requires offset { IsOffset config.now.timezone }
    requires moment { IfSome moment IsMoment }
    ensures { let found = named_item config.now kind path.now moment vars body in
        MatchResult result (λ made. found ≡ Ok made) (IsFault found) }
{
    let name = file_name(path.text());
    set_names(alloc, &mut vars, config.timezone, kind, stem(name))?;
    let sought = Sought {
        config,
        kind,
        path,
        ext: output_ext(config.markdown_ext.as_str(), extension(name)),
        moment,
    };
    built_item(alloc, &sought, vars, body)
}

// An item that is built, whose variables have its slug and title.
fn built_item(alloc: Global, sought: &Sought, vars: Hash, body: Text) -> Result<Item, ItemError>
    requires offset { IsOffset sought.now.config.now.timezone }
    requires moment { IfSome sought.now.moment IsMoment }
    ensures { let found = sought_item sought.now vars body in
        MatchResult result (λ made. found ≡ Ok made) (IsFault found) }
{
    let template = template_of(alloc, sought, &vars)?;
    let url = address(alloc, sought, template.as_str(), &vars)?.into_shared()?;
    let dest = dest_of(alloc, sought.config, sought.kind, url.as_str(), sought.ext)?;
    let vars = set_variables(alloc, sought, &url, vars)?;
    Ok(Item {
        moment: sought.moment,
        url,
        dest,
        vars,
        body,
    })
}

fn template_of(alloc: Global, sought: &Sought, vars: &Hash) -> Result<Text, ItemError>
    ensures { let found = template_of sought.now vars.now in
        MatchResult result (λ text. found ≡ Ok text) (IsFault found) }
{
    template(
        alloc,
        sought.config,
        sought.ext,
        stem(file_name(sought.path.text())),
        sought.kind,
        variable(vars, "permalink"),
    )
}

fn address(alloc: Global, sought: &Sought, template: &str, vars: &Hash) -> Result<Text, ItemError>
    requires offset { IsOffset sought.now.config.now.timezone }
    requires moment { IfSome sought.now.moment IsMoment }
    ensures { let found = address_of sought.now template.now vars.now in
        MatchResult result (λ text. found ≡ Ok text) (IsFault found) }
{
    let slug = slug_of(alloc, vars)?;
    let categories = categories(alloc, sought.kind, sought.path.text(), vars)?;
    url_of(alloc, template, sought, &slug, &categories)
}
