// Files with choices. A site is a text of forms, each behind `@`: a path, a line end, and a text. Where `<a^b>` stands in a path or
// a text, one of these is taken.
use crate::dice::Dice;
use std::alloc::Global;

/// How many forms a site has.
pub(crate) fn form_count(site: &str) -> u64 {
    (site.split('@').count() as u64).saturating_sub(1)
}

/// The path and the text of a form, with their choices.
pub(crate) fn form_at(site: &str, place: u64) -> Option<(&str, &str)> {
    let mut at = 0;
    for form in site.split('@') {
        if at == place.wrapping_add(1) {
            return form.split_once('\n');
        }
        at = at.wrapping_add(1);
    }
    None
}

/// A text with one of each choice.
pub(crate) fn chosen(alloc: Global, dice: &mut Dice, text: &str) -> Option<String> {
    let mut made = String::new(alloc);
    for piece in text.split('<') {
        add_piece(&mut made, dice, piece)?;
    }
    Some(made)
}

fn add_piece(made: &mut String, dice: &mut Dice, piece: &str) -> Option<()> {
    match piece.split_once('>') {
        Some((choices, behind)) => {
            let place = dice.below(choices.split('^').count() as u64);
            made.push_str(choice(choices, place)).ok()?;
            made.push_str(behind).ok()
        }
        None => made.push_str(piece).ok(),
    }
}

fn choice(choices: &str, place: u64) -> &str {
    let mut at = 0;
    for choice in choices.split('^') {
        if at == place {
            return choice;
        }
        at = at.wrapping_add(1);
    }
    ""
}
