// What the placeholders of a template stand for.
ghost use Rattle.std.specs.Prelude.{◌≡◌};
ghost use Rattle.std.specs.Option.{option_copied};

use crate::placeholder::Placeholder;
use crate::values::Values;
use site_base::{Memory, Text};
use std::alloc::Global;

/// The values of the placeholders of a template. One that an item lacks is `None`.
#[derive(Drop)]
pub struct UrlParts {
    pub year: Option<Text>,
    /// Two digits.
    pub month: Option<Text>,
    /// Two digits.
    pub day: Option<Text>,
    /// The month without a zero in front.
    pub i_month: Option<Text>,
    /// The day without a zero in front.
    pub i_day: Option<Text>,
    /// Two digits.
    pub short_year: Option<Text>,
    /// The day of the year, in three digits.
    pub y_day: Option<Text>,
    pub hour: Option<Text>,
    pub minute: Option<Text>,
    pub second: Option<Text>,
    /// The slug as it stands.
    pub title: Option<Text>,
    /// The slug, slugified.
    pub slug: Option<Text>,
    /// Each in ASCII lower case, joined by `/`.
    pub categories: Option<Text>,
    /// The file name without extension, slugified.
    pub name: Option<Text>,
    /// The file name without extension.
    pub basename: Option<Text>,
    /// Of a page the folder, and of a document the path below the collection's folder, without extension.
    pub path: Option<Text>,
    pub collection: Option<Text>,
    pub output_ext: Option<Text>,
}

impl Values for UrlParts {
    ghost use Rattle.permalinks.specs.Placeholders.{value};

    ghost stands_for = { value };

    fn value(&self, alloc: Global, placeholder: Placeholder) -> Result<Option<Text>, Memory> {
        match self.part(placeholder) {
            Some(text) => Ok(Some(Text::copy(alloc, text.as_str())?)),
            None => Ok(None),
        }
    }
}

impl UrlParts {
    ghost use Rattle.permalinks.specs.Placeholders.{value};

    fn part(&self, placeholder: Placeholder) -> Option<&Text>
        ensures { option_copied result ≡ value self.now placeholder }
    {
        match placeholder {
            Placeholder::Year => self.year.as_ref(),
            Placeholder::Month => self.month.as_ref(),
            Placeholder::Day => self.day.as_ref(),
            Placeholder::IMonth => self.i_month.as_ref(),
            Placeholder::IDay => self.i_day.as_ref(),
            Placeholder::ShortYear => self.short_year.as_ref(),
            Placeholder::YDay => self.y_day.as_ref(),
            Placeholder::Hour => self.hour.as_ref(),
            Placeholder::Minute => self.minute.as_ref(),
            Placeholder::Second => self.second.as_ref(),
            Placeholder::Title => self.title.as_ref(),
            Placeholder::Slug => self.slug.as_ref(),
            Placeholder::Categories => self.categories.as_ref(),
            Placeholder::Name => self.name.as_ref(),
            Placeholder::Basename => self.basename.as_ref(),
            Placeholder::Path => self.path.as_ref(),
            Placeholder::Collection => self.collection.as_ref(),
            Placeholder::OutputExt => self.output_ext.as_ref(),
        }
    }
}
