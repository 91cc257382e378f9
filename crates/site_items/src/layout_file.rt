// Layouts.
ghost use Rattle.std.specs.Prelude.{◌≡◌, IfOk, MatchResult};
ghost use Rattle.site_items.specs.Files.{layout, layout_with};
ghost use Rattle.site_items.specs.Outcomes.{IsFault};

use crate::file_content::FileContent;
use crate::folders::{behind, without_extension};
use crate::front_parser::PlainParser;
use crate::item_error::ItemError;
use crate::matter::Matter;
use site_base::{Memory, SitePath, Text, Value};
use std::alloc::Global;

/// A layout, as its file makes it.
#[derive(Drop)]
pub struct LayoutFile {
    /// Its path below `_layouts`, without extension.
    pub name: Text,
    pub path: SitePath,
    /// The variables of its front matter; an empty hash where it has none.
    pub vars: Value,
    pub body: Text,
}

impl LayoutFile {
    /// The layout that a file below `_layouts` is. Its body shares the bytes of the file.
    ///
    /// `Fault` comes exactly where the file is no UTF-8 (`NotUtf8`), or else its front matter is no mapping (`Yaml`, with
    /// its line).
    pub fn read(
        alloc: Global,
        path: &SitePath,
        content: &FileContent,
    ) -> Result<LayoutFile, ItemError>
        ensures { MatchResult result (λ made. layout path.now content.now ≡ Ok made) (IsFault (layout path.now content.now)) }
    {
        let mut parser = PlainParser;
        let matter = Matter::read(alloc, content, &mut parser)?;
        Ok(LayoutFile::of(alloc, path, matter)?)
    }

    /// The layout that a file below `_layouts` is by its variables and its body.
    pub fn of(alloc: Global, path: &SitePath, matter: Matter) -> Result<LayoutFile, Memory>
        ensures { IfOk result (λ made. made ≡ layout_with path.now matter) }
    {
        let name = without_extension(behind("_layouts/", path.text()));
        Ok(LayoutFile {
            name: Text::copy(alloc, name)?,
            path: path.copy(alloc)?,
            vars: Value::Hash(matter.vars),
            body: matter.body,
        })
    }
}
