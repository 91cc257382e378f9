// Slugs.
ghost use Rattle.std.specs.Prelude.{◌≡◌, ◌∷◌, [], ◌++◌, IfOk, OnOk};
ghost use Rattle.std.specs.String.{string_bytes};
ghost use Rattle.permalinks.specs.Slug.{is_word_category, is_kept, lower_bytes, with_dash, slug};

use site_base::{Memory, Text};
use std::alloc::{AllocError, Global};
use ucd_category::GeneralCategory;

/// The slug of a text: in ASCII lower case, with one `-` for each run of characters that are neither letters, marks
/// nor decimal digits, and none at the ends.
pub fn slugify(alloc: Global, text: &str) -> Result<Text, Memory>
    ensures { IfOk result (λ made. made ≡ slug text.now) }
{
    Text::from_string(slug_text(alloc, text)?)
}

fn slug_text(alloc: Global, text: &str) -> Result<String, AllocError>
    ensures { IfOk result (λ made. string_bytes made ≡ slug text.now) }
{
    let mut slug = String::new(alloc);
    let mut begun = false;
    let mut gap = false;
    for c in text.chars() {
        if is_kept(c) {
            push_kept(&mut slug, gap, c)?;
            begun = true;
            gap = false;
        } else {
            gap = begun;
        }
    }
    Ok(slug)
}

fn push_kept(slug: &mut String, dash: bool, c: char) -> Result<(), AllocError>
    ensures { OnOk result (string_bytes slug.new ≡ string_bytes slug.old ++ lower_bytes (with_dash dash (c ∷ []))) }
{
    if dash {
        slug.push('-')?;
    }
    slug.push(c.to_ascii_lowercase())
}

fn is_kept(c: char) -> bool
    ensures { result ≡ is_kept c }
{
    is_word_category(GeneralCategory::for_char(c))
}

fn is_word_category(category: GeneralCategory) -> bool
    ensures { result ≡ is_word_category category }
{
    matches!(
        category,
        GeneralCategory::UppercaseLetter
            | GeneralCategory::LowercaseLetter
            | GeneralCategory::TitlecaseLetter
            | GeneralCategory::ModifierLetter
            | GeneralCategory::OtherLetter
            | GeneralCategory::NonspacingMark
            | GeneralCategory::SpacingMark
            | GeneralCategory::EnclosingMark
            | GeneralCategory::DecimalNumber
    )
}
