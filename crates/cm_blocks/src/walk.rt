// A walk over the lines of a text.
ghost use Rattle.std.specs.Prelude.{◌≡◌, ◌++◌, ◌∷◌, [], IfOk, OnOk, drop, true};
ghost use Rattle.markdown_grammar.specs.Columns.{own_line};
ghost use Rattle.cm_containers.specs.Spots.{IsSpot, rest_at, text_at};
ghost use Rattle.cm_blocks.specs.Flat as flat;
ghost use Rattle.cm_blocks.specs.Leaves.{is_prose};
ghost use Rattle.cm_blocks.specs.Walks.{lazily_on, put_in, shown};

use crate::kinds::{Leaf, Token};
use crate::leaf_more::{Taken, take_rest};
use crate::opening::{Opens, leaf_of, what_opens};
use crate::reaching::go_into;
use cm_containers::{Container, OpenContainers, Spot, behind_white};
use site_base::Memory;
use std::alloc::Global;
use std::mem;

/// The tokens so far, the containers that are open, the innermost last, the leaf that is open, and
/// whether the innermost container has a block.
#[derive(Drop)]
pub(crate) struct Walk {
    pub tokens: Vec<Token>,
    pub stack: OpenContainers,
    pub leaf: Option<Leaf>,
    pub is_filled: bool,
}

impl Walk {
    pub fn new(alloc: Global) -> Walk
        ensures { shown result ≡ flat.flat_start }
    {
        Walk {
            tokens: Vec::new(alloc),
            stack: OpenContainers::new(alloc),
            leaf: None,
            is_filled: false,
        }
    }

    /// Takes one more line, which has no line end.
    pub fn take_line(&mut self, alloc: Global, line: &str) -> Result<(), Memory>
        ensures { OnOk result (shown self.new ≡ flat.step (shown self.old) (own_line 0 line.now)) }
    {
        let is_prose = is_paragraph(&self.leaf);
        let reach = go_into(&self.stack, is_prose, self.is_filled, line);
        if reach.is_lazy {
            return self.go_lazily(line, reach.spot);
        }
        if reach.kept == self.stack.len() {
            return self.go_on(alloc, line, reach.spot);
        }
        self.close_to(reach.kept)?;
        self.begin(alloc, line, reach.spot)
    }

    // The open paragraph has one line more.
    fn go_lazily(&mut self, line: &str, spot: Spot) -> Result<(), Memory>
        requires spot { IsSpot line.now spot }
        requires prose { is_prose self.old.leaf ≡ true }
        ensures { OnOk result (shown self.new ≡ lazily_on (text_at line.now spot) (shown self.old)) }
    {
        if let Some(Leaf::Paragraph { text }) = mem::replace(&mut self.leaf, None) {
            let white = behind_white(line, spot);
            let text = text.with(&line[white.at..])?;
            self.leaf = Some(Leaf::Paragraph { text });
        }
        Ok(())
    }

    // All containers stay open: the open leaf takes the rest of the line, or a block begins.
    fn go_on(&mut self, alloc: Global, line: &str, spot: Spot) -> Result<(), Memory>
        requires { IsSpot line.now spot }
        ensures { OnOk result (shown self.new ≡ flat.leaf_on (shown self.old) (rest_at line.now spot) (flat.leaf_more self.old.leaf (rest_at line.now spot))) }
    {
        match mem::replace(&mut self.leaf, None) {
            None => self.begin(alloc, line, spot),
            Some(leaf) => match take_rest(alloc, leaf, line, spot)? {
                Taken::More(leaf) => {
                    self.leaf = Some(leaf);
                    Ok(())
                }
                Taken::Left(leaf) => {
                    push(&mut self.tokens, Token::Holds(leaf))?;
                    self.begin(alloc, line, spot)
                }
            },
        }
    }

    // What the rest of a line starts that nothing open takes.
    fn begin(&mut self, alloc: Global, line: &str, spot: Spot) -> Result<(), Memory>
        requires { IsSpot line.now spot }
        ensures { OnOk result (shown self.new ≡ flat.begin (shown self.old) (rest_at line.now spot)) }
    {
        let mut spot = spot;
        let mut known = None;
        loop {
            match what_opens(line, spot, known) {
                Opens::Box(held, inside, behind) => {
                    self.open_box(held)?;
                    spot = inside;
                    known = behind;
                }
                Opens::Other(start, white) => {
                    return self.put(leaf_of(alloc, line, spot, start, white)?);
                }
            }
        }
    }

    fn open_box(&mut self, held: Container) -> Result<(), Memory>
        ensures { OnOk result (shown self.new ≡ flat.opened held (shown self.old)) }
    {
        push(&mut self.tokens, Token::Opens(held))?;
        self.stack.push(held)?;
        self.is_filled = false;
        Ok(())
    }

    // A leaf, or a blank line.
    fn put(&mut self, leaf: Option<Leaf>) -> Result<(), Memory>
        ensures { OnOk result (shown self.new ≡ put_in leaf (shown self.old)) }
    {
        match leaf {
            Some(leaf) => {
                self.leaf = Some(leaf);
                self.is_filled = true;
                Ok(())
            }
            None => push(&mut self.tokens, Token::Blank),
        }
    }

    // Closes the open leaf, and all but the outermost containers.
    fn close_to(&mut self, kept: usize) -> Result<(), Memory>
        ensures { OnOk result (shown self.new ≡ flat.closed_to kept (shown self.old)) }
    {
        self.close_leaf()?;
        self.is_filled = self.is_filled || kept < self.stack.len();
        push_ends(&mut self.tokens, self.stack.as_slice(), kept)?;
        self.stack.truncate(kept);
        Ok(())
    }

    fn close_leaf(&mut self) -> Result<(), Memory>
        ensures { OnOk result (shown self.new ≡ flat.leaf_closed (shown self.old)) }
    {
        match mem::replace(&mut self.leaf, None) {
            Some(leaf) => push(&mut self.tokens, Token::Holds(leaf)),
            None => Ok(()),
        }
    }

    /// The tokens, where no line is left.
    pub fn finish(mut self) -> Result<Vec<Token>, Memory>
        ensures { IfOk result (λ tokens. tokens.items ≡ flat.finished (shown self)) }
    {
        self.close_to(0)?;
        Ok(self.tokens)
    }
}

fn is_paragraph(leaf: &Option<Leaf>) -> bool
    ensures { result ≡ is_prose leaf.now }
{
    matches!(leaf, Some(Leaf::Paragraph { .. }))
}

fn push(tokens: &mut Vec<Token>, token: Token) -> Result<(), Memory>
    ensures { OnOk result (tokens.new.items ≡ tokens.old.items ++ token ∷ []) }
{
    tokens.push(token)?;
    Ok(())
}

// The ends of all but the outermost containers.
fn push_ends(tokens: &mut Vec<Token>, stack: &[Container], kept: usize) -> Result<(), Memory>
    ensures { OnOk result (tokens.new.items ≡ tokens.old.items ++ flat.closes (drop kept stack.now)) }
{
    let mut i = stack.len();
    while i > kept {
        i -= 1;
        push(tokens, Token::Closes(stack[i]))?;
    }
    Ok(())
}
