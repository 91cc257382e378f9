// Places in a line, by byte and column.
ghost use Rattle.std.specs.Prelude.{◌≡◌, ◌<◌, ◌^◌, ◌+◌};
ghost use Rattle.markdown_grammar.specs.Columns.{shifted};
ghost use Rattle.cm_containers.specs.Spots.{BehindWhite, IsSpot, TakesColumn, further_in_tab, rest_at, text_at};

/// A place in a line: a byte, its column, and the column up to which it is taken, which lies behind
/// that of the byte only where this is a tab.
#[derive(Clone, Copy)]
pub struct Spot {
    pub at: usize,
    pub start: u128,
    pub column: u128,
}

/// The place behind up to so many columns of white space. CommonMark 0.31.2, section 2.2.
pub fn shift(line: &str, from: Spot, columns: u128) -> Spot
    requires { IsSpot line.now from }
    ensures rest { rest_at line.now result ≡ shifted columns from.column (text_at line.now from) }
    ensures spot { IsSpot line.now result }
{
    let mut spot = from;
    let mut left = columns;
    while left > 0 {
        match next_column(line, spot) {
            Some(next) => {
                spot = next;
                left -= 1;
            }
            None => return spot,
        }
    }
    spot
}

/// The place behind all white space.
pub fn behind_white(line: &str, from: Spot) -> Spot
    requires { IsSpot line.now from }
    ensures { BehindWhite line.now from result }
{
    let more_than_all = line.len() as u128 * 4 + 8;
    shift(line, from, more_than_all)
}

// One column further, where white space stands.
fn next_column(line: &str, spot: Spot) -> Option<Spot>
    requires { IsSpot line.now spot }
    ensures { TakesColumn line.now spot result }
{
    let bytes = line.as_bytes();
    if spot.at == bytes.len() {
        return None;
    }
    match bytes[spot.at] {
        b' ' => Some(behind(spot.at, spot.column)),
        b'\t' => Some(within_tab(spot)),
        _ => None,
    }
}

/// The place behind a byte of one column that stands at a place.
pub fn behind(at: usize, column: u128) -> Spot
    requires room { at < 2 ^ 63 }
    requires small { column < 2 ^ 66 }
    ensures { result ≡ record { at = at + 1; start = column + 1; column = column + 1 } }
{
    Spot {
        at: at + 1,
        start: column + 1,
        column: column + 1,
    }
}

// One column of a tab.
fn within_tab(spot: Spot) -> Spot
    requires room { spot.at < 2 ^ 63 }
    requires small { spot.column < 2 ^ 66 }
    ensures { result ≡ further_in_tab spot }
{
    let column = spot.column + 1;
    if column % 4 == 0 {
        Spot {
            at: spot.at + 1,
            start: column,
            column,
        }
    } else {
        Spot { column, ..spot }
    }
}
