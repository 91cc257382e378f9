// The placeholders of templates.
ghost use Rattle.std.specs.Prelude.{◌≡◌};

/// What a template names behind a `:`.
#[derive(Clone, Copy)]
pub enum Placeholder {
    Year,
    Month,
    Day,
    IMonth,
    IDay,
    ShortYear,
    YDay,
    Hour,
    Minute,
    Second,
    Title,
    Slug,
    Categories,
    Name,
    Basename,
    Path,
    Collection,
    OutputExt,
}

impl Placeholder {
    ghost use Rattle.permalinks.specs.Placeholders.{named};

    /// The placeholder of this name.
    pub fn named(name: &str) -> Option<Placeholder>
        ensures { result ≡ named name.now }
    {
        match name {
            "year" => Some(Placeholder::Year),
            "month" => Some(Placeholder::Month),
            "day" => Some(Placeholder::Day),
            "i_month" => Some(Placeholder::IMonth),
            "i_day" => Some(Placeholder::IDay),
            "short_year" => Some(Placeholder::ShortYear),
            "y_day" => Some(Placeholder::YDay),
            "hour" => Some(Placeholder::Hour),
            "minute" => Some(Placeholder::Minute),
            "second" => Some(Placeholder::Second),
            "title" => Some(Placeholder::Title),
            "slug" => Some(Placeholder::Slug),
            "categories" => Some(Placeholder::Categories),
            "name" => Some(Placeholder::Name),
            "basename" => Some(Placeholder::Basename),
            "path" => Some(Placeholder::Path),
            "collection" => Some(Placeholder::Collection),
            "output_ext" => Some(Placeholder::OutputExt),
            _ => None,
        }
    }
}
