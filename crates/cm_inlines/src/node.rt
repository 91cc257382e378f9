// The nodes of inlines.
use cm_spans::Mark;
use site_base::Text;

/// Where a link goes, and its title if it has one.
#[derive(Drop)]
pub struct Target {
    pub url: Text,
    pub title: Option<Text>,
}

/// A run of emphasis marks that may still be paired: how many there are now and were at first, and
/// whether it can open and close emphasis.
#[derive(Clone, Copy)]
pub struct Run {
    pub mark: Mark,
    pub len: usize,
    pub first: usize,
    pub opens: bool,
    pub closes: bool,
}

/// An opening bracket that may still begin a link or an image, and the place behind it.
#[derive(Clone, Copy)]
pub struct Opening {
    pub is_image: bool,
    pub is_active: bool,
    pub behind: usize,
}

/// A piece of inlines. What opens and what closes stands for itself, before and behind what is inside.
#[derive(Drop)]
pub enum Node<'a> {
    Text(&'a str),
    /// Words and the spaces between them.
    Words(&'a str),
    /// What an escape or a reference stands for.
    Character(char),
    SoftBreak,
    HardBreak,
    /// The text of a code span, in which line ends stand for spaces.
    Code(&'a str),
    Html(&'a str),
    /// An address with a scheme, which is its own text.
    Uri(&'a str),
    /// A mail address, which is its own text.
    Email(&'a str),
    OpenEmphasis,
    CloseEmphasis,
    OpenStrong,
    CloseStrong,
    OpenLink(Target),
    CloseLink,
    OpenImage(Target),
    CloseImage,
    /// Emphasis marks that are text: the mark, and how often it stands there.
    Marks(Mark, usize),
    /// An opening bracket that is text, of an image or not.
    Bracket(bool),
    /// Marks of which no pair was found are text.
    Run(Run),
    /// A bracket that begins nothing is text.
    Opening(Opening),
    /// Nothing stands here.
    Nothing,
}
