// A text as a terminal may have it.
ghost use Rattle.std.specs.Prelude.{◌≡◌, ◌++◌, IfOk, OnOk};
ghost use Rattle.std.specs.String.{string_bytes};
ghost use Rattle.site_sentences.specs.Shown.{shown, shown_char};

use std::alloc::{AllocError, Global};

/// The text with a question mark in place of each control character: a terminal would obey it, and a line would end.
pub fn shown(alloc: Global, text: &str) -> Result<String, AllocError>
    ensures { IfOk result (λ made. string_bytes made ≡ shown text.now) }
{
    let mut made = String::new(alloc);
    push_shown(&mut made, text)?;
    Ok(made)
}

fn push_shown(made: &mut String, text: &str) -> Result<(), AllocError>
    ensures { OnOk result (string_bytes made.new ≡ string_bytes made.old ++ shown text.now) }
{
    for character in text.chars() {
        made.push(shown_char(character))?;
    }
    Ok(())
}

fn shown_char(character: char) -> char
    ensures { result ≡ shown_char character }
{
    let number = u32::from(character);
    if number < 32 || 127 <= number && number < 160 {
        '?'
    } else {
        character
    }
}
