// What files are as items, as far as the present moment does not decide it.
ghost use Rattle.std.specs.Prelude.{◌≡◌, Err, IfOk, IfSome, MatchResult};
ghost use Rattle.site_config.specs.Forms.{given};
ghost use Rattle.site_dates.specs.Moment.{IsMoment};
ghost use Rattle.site_dates.specs.Offset.{IsOffset};
ghost use Rattle.site_items.specs.Items.{document_date, has_present, is_left_out, is_published, named_item, of_moment, some_item, timeless_of, timeless_with};
ghost use Rattle.site_items.specs.Outcomes.{IsFault};
ghost use Rattle.site_items.specs.Matter.{outcome_of};
ghost use Rattle.site_items.specs.Seeking.{ruled_at, ruled_later, ruled_matter, ruled_timeless};
ghost use Rattle.site_files.specs.Names.{file_name, stem};

use crate::dates::{document_date, given_date};
use crate::defaults::variables;
use crate::file_content::FileContent;
use crate::front_parser::PlainParser;
use crate::item::{Item, Rules, named_item};
use crate::item_error::{ItemError, LineFault, config_fault};
use crate::kind::Kind;
use crate::lookup::variable;
use crate::matter::Matter;
use site_base::{Hash, Memory, SitePath, Text, Value};
use site_config::Config;
use site_files::{file_name, stem};
use std::alloc::Global;

/// What a file is as an item, as far as the present moment does not decide it.
#[derive(Drop)]
pub enum Timeless {
    /// It is not published.
    Unpublished,
    /// A draft without a date of its own, which has the present moment: its variables and its body.
    Undated(Hash, Text),
    /// An item, which is left out before its moment.
    Made(Item),
    /// What is wrong with its address, from its moment on.
    Faulty(Option<i64>, LineFault),
}

impl Timeless {
    /// What a file of a kind is. Its body shares the bytes of the file, and its variables share its path.
    ///
    /// `Fault` comes exactly where the file has a fault at every moment, and names the first: it is no UTF-8 (`NotUtf8`),
    /// its front matter is no mapping (`Yaml`, with its line), its variable `published` is neither nil nor a bool (`Config`),
    /// or else it is published, and `date` is neither nil nor a date (`BadDate`).
    pub(crate) fn read(
        alloc: Global,
        rules: &Rules,
        kind: Kind,
        path: &SitePath,
        content: &FileContent,
    ) -> Result<Timeless, ItemError>
        requires offset { IsOffset rules.now.config.now.timezone }
        ensures { let found = ruled_timeless rules.entry.now kind path.now content.now in
            MatchResult result (λ made. found ≡ Ok made) (IsFault found) }
    {
        let mut parser = PlainParser;
        let matter = Matter::read(alloc, content, &mut parser)?;
        Timeless::of(alloc, rules, kind, path, matter)
    }

    /// The same as it is kept: further holders of it take little more.
    pub fn known(
        alloc: Global,
        rules: &Rules,
        kind: Kind,
        path: &SitePath,
        content: &FileContent,
    ) -> Result<Result<Timeless, LineFault>, Memory>
        requires offset { IsOffset rules.now.config.now.timezone }
        ensures { IfOk result (λ known. ruled_timeless rules.entry.now kind path.now content.now ≡ outcome_of known) }
    {
        match Timeless::read(alloc, rules, kind, path, content) {
            Ok(made) => Ok(Ok(made.into_shared()?)),
            Err(ItemError::Fault(fault)) => Ok(Err(fault)),
            Err(ItemError::Memory) => Err(Memory),
        }
    }

    // What a file is by its variables and its body.
    fn of(
        alloc: Global,
        rules: &Rules,
        kind: Kind,
        path: &SitePath,
        matter: Matter,
    ) -> Result<Timeless, ItemError>
        requires offset { IsOffset rules.now.config.now.timezone }
        ensures { let found = ruled_matter rules.entry.now kind path.now matter in
            MatchResult result (λ made. found ≡ Ok made) (IsFault found) }
    {
        let Matter { vars: own, body } = matter;
        let vars = variables(alloc, rules.config, rules.scopes, kind, path.text(), &own)?;
        timeless_with(alloc, rules.config, kind, path, body, vars)
    }

    /// The item at the present moment; `None` where it is left out.
    ///
    /// `Fault` comes exactly where it is not left out, and its variable `permalink` is neither nil nor a text, or a template
    /// whose placeholder has no value, or makes no path of a site (`Config`).
    pub fn at(
        self,
        alloc: Global,
        rules: &Rules,
        kind: Kind,
        path: &SitePath,
    ) -> Result<Option<Item>, ItemError>
        requires offset { IsOffset rules.now.config.now.timezone }
        requires now { IsMoment rules.now.now }
        ensures { let found = ruled_at rules.entry.now kind path.now self in
            MatchResult result (λ made. found ≡ Ok made) (IsFault found) }
    {
        match self {
            Timeless::Unpublished => Ok(None),
            Timeless::Undated(vars, body) => present_item(alloc, rules, kind, path, body, vars),
            Timeless::Made(item) => Ok(unless_later(rules, item)),
            Timeless::Faulty(moment, fault) => fault_unless_later(rules, moment, fault),
        }
    }

    /// An equal one. What can be shared is not copied.
    pub fn share(&self, alloc: Global) -> Result<Timeless, Memory>
        ensures { IfOk result (λ shared. shared ≡ self.now) }
    {
        match self {
            Timeless::Unpublished => Ok(Timeless::Unpublished),
            Timeless::Undated(vars, body) => {
                Ok(Timeless::Undated(vars.share(alloc)?, body.share(alloc)?))
            }
            Timeless::Made(item) => Ok(Timeless::Made(item.share(alloc)?)),
            Timeless::Faulty(moment, fault) => Ok(Timeless::Faulty(*moment, *fault)),
        }
    }

    fn into_shared(self) -> Result<Timeless, Memory>
        ensures { IfOk result (λ shared. shared ≡ self) }
    {
        match self {
            Timeless::Undated(vars, body) => {
                Ok(Timeless::Undated(vars.into_shared()?, body.into_shared()?))
            }
            Timeless::Made(item) => Ok(Timeless::Made(item.into_shared()?)),
            made => Ok(made),
        }
    }
}

// What an item is whose variables these are.
fn timeless_with(
    alloc: Global,
    config: &Config,
    kind: Kind,
    path: &SitePath,
    body: Text,
    vars: Hash,
) -> Result<Timeless, ItemError>
    requires offset { IsOffset config.now.timezone }
    ensures { let found = timeless_with config.now kind path.now body vars in
        MatchResult result (λ made. found ≡ Ok made) (IsFault found) }
{
    if !is_published(variable(&vars, "published"))? && !config.unpublished {
        return Ok(Timeless::Unpublished);
    }
    let given = given_date(config.timezone, variable(&vars, "date"))?;
    Ok(dated(alloc, config, kind, path, body, vars, given)?)
}

// The variable `published`.
fn is_published(value: Option<&Value>) -> Result<bool, ItemError>
    ensures { MatchResult result (λ is_set. is_published (given value.entry) ≡ Ok is_set) (IsFault (is_published (given value.entry))) }
{
    match value {
        None | Some(Value::Nil) => Ok(true),
        Some(Value::Bool(is_set)) => Ok(*is_set),
        Some(_) => Err(config_fault()),
    }
}

// What an item is that is published, whose variable `date` names this moment.
fn dated(
    alloc: Global,
    config: &Config,
    kind: Kind,
    path: &SitePath,
    body: Text,
    vars: Hash,
    given: Option<i64>,
) -> Result<Timeless, Memory>
    requires offset { IsOffset config.now.timezone }
    requires given { IfSome given IsMoment }
    ensures { let moment = document_date config.now.timezone kind (stem (file_name path.now)) given in
        IfOk result (λ made. made ≡ timeless_of config.now kind path.now vars body moment) }
{
    let name = stem(file_name(path.text()));
    let moment = document_date(config.timezone, kind, name, given);
    if has_present(kind, moment) {
        return Ok(Timeless::Undated(vars, body));
    }
    of_moment(alloc, config, kind, path, body, vars, moment)
}

// Whether it is a draft without a moment of its own.
fn has_present(kind: Kind, moment: Option<i64>) -> bool
    ensures { result ≡ has_present kind moment }
{
    kind.is_draft() && moment.is_none()
}

fn of_moment(
    alloc: Global,
    config: &Config,
    kind: Kind,
    path: &SitePath,
    body: Text,
    vars: Hash,
    moment: Option<i64>,
) -> Result<Timeless, Memory>
    requires offset { IsOffset config.now.timezone }
    requires moment { IfSome moment IsMoment }
    ensures { let found = named_item config.now kind path.now moment vars body in
        IfOk result (λ made. made ≡ of_moment moment found) }
{
    match named_item(alloc, config, kind, path, body, vars, moment) {
        Ok(item) => Ok(Timeless::Made(item)),
        Err(ItemError::Fault(fault)) => Ok(Timeless::Faulty(moment, fault)),
        Err(ItemError::Memory) => Err(Memory),
    }
}

// The item that has the present moment.
fn present_item(
    alloc: Global,
    rules: &Rules,
    kind: Kind,
    path: &SitePath,
    body: Text,
    vars: Hash,
) -> Result<Option<Item>, ItemError>
    requires offset { IsOffset rules.now.config.now.timezone }
    requires now { IsMoment rules.now.now }
    ensures { let found = some_item (named_item rules.entry.now.config.now kind path.now (Some rules.entry.now.now) vars body) in
        MatchResult result (λ made. found ≡ Ok made) (IsFault found) }
{
    match named_item(alloc, rules.config, kind, path, body, vars, Some(rules.now)) {
        Ok(item) => Ok(Some(item)),
        Err(error) => Err(error),
    }
}

fn unless_later(rules: &Rules, item: Item) -> Option<Item>
    ensures { ruled_later rules.entry.now item.moment (Ok item) ≡ Ok result }
{
    if is_left_out(rules, item.moment) {
        None
    } else {
        Some(item)
    }
}

fn fault_unless_later(
    rules: &Rules,
    moment: Option<i64>,
    fault: LineFault,
) -> Result<Option<Item>, ItemError>
    ensures { let found = ruled_later rules.entry.now moment (Err (fault.line, fault.kind)) in
        MatchResult result (λ made. found ≡ Ok made) (IsFault found) }
{
    if is_left_out(rules, moment) {
        Ok(None)
    } else {
        Err(ItemError::Fault(fault))
    }
}

// Whether a document is of a later moment, and the future is not built.
fn is_left_out(rules: &Rules, moment: Option<i64>) -> bool
    ensures { result ≡ is_left_out rules.entry.now.now rules.entry.now.future moment }
{
    match moment {
        Some(moment) => rules.now < moment && !rules.future,
        None => false,
    }
}
