// The text that `highlight` writes.
ghost use Rattle.std.specs.Prelude.{◌≡◌, ◌≤◌, ◌++◌, length, map, IfOk, OnOk, string_bytes};
ghost use Rattle.std.specs.List.{prefix_len, suffix_len};
ghost use Rattle.liquid_tags.specs.Highlights as highlights;
ghost use Rattle.liquid_tags.specs.Highlights.{class_byte, is_line_end, without_end, without_front};

use site_base::{Memory, Text};
use std::alloc::{AllocError, Global};
use text_filters::{TextChange, changed};

/// The code in a figure, with its language in small letters, and without the line ends at both ends.
pub fn highlighted(alloc: Global, language: &str, code: &str) -> Result<Text, Memory>
    ensures { IfOk result (λ text. text ≡ highlights.highlighted language.now code.now) }
{
    let name = language.to_ascii_lowercase(alloc)?;
    let code = changed(alloc, TextChange::Escape, without_line_ends(code))?;
    let mut text = String::new(alloc);
    text.push_str("<figure class=\"highlight\"><pre><code class=\"language-")?;
    push_class(&mut text, name.as_str())?;
    text.push_str("\" data-lang=\"")?;
    text.push_str(name.as_str())?;
    text.push_str("\">")?;
    text.push_str(code.as_str())?;
    text.push_str("</code></pre></figure>")?;
    Text::from_string(text)
}

// Writes a name with `-` for each `+`.
fn push_class(text: &mut String, name: &str) -> Result<(), AllocError>
    ensures { OnOk result (string_bytes text.new ≡ string_bytes text.old ++ map class_byte name.now) }
{
    for character in name.chars() {
        text.push(in_class(character))?;
    }
    Ok(())
}

fn in_class(character: char) -> char
    ensures { result ≡ class_byte character }
{
    if character == '+' { '-' } else { character }
}

// Without CR and LF at both ends.
fn without_line_ends(text: &str) -> &str
    ensures { result.now ≡ highlights.without_line_ends text.now }
{
    without_end(without_front(text))
}

fn without_front(text: &str) -> &str
    ensures { result.now ≡ without_front text.now }
{
    &text[front_len(text.as_bytes())..]
}

fn without_end(text: &str) -> &str
    ensures { result.now ≡ without_end text.now }
{
    let len = text.len() - end_len(text.as_bytes());
    &text[..len]
}

fn front_len(text: &[u8]) -> usize
    ensures value { result ≡ prefix_len is_line_end text.now }
    ensures within { result ≤ length text.now }
{
    text.iter().take_while(|byte| is_line_end(**byte)).count()
}

fn end_len(text: &[u8]) -> usize
    ensures value { result ≡ suffix_len is_line_end text.now }
    ensures within { result ≤ length text.now }
{
    text.iter()
        .rev()
        .take_while(|byte| is_line_end(**byte))
        .count()
}

fn is_line_end(byte: u8) -> bool
    ensures { result ≡ is_line_end byte }
{
    byte == b'\n' || byte == b'\r'
}
