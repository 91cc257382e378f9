// Blocks, one line after another.
ghost use Rattle.std.specs.Prelude.{◌≡◌, true, ℕ, List, [], ◌∷◌, ◌++◌};
ghost use Rattle.markdown_grammar.specs.Lines.{trim_front};
ghost use Rattle.markdown_grammar.specs.Columns.{Line, lazy_line};
ghost use Rattle.markdown_grammar.specs.Extents.{add_line, ends_in_paragraph, no_blocks};
ghost use Rattle.markdown_grammar.specs.Blocks.{rules, blocks};
ghost use Rattle.markdown_grammar.specs.OpenEnds.{OpenEnd, none_open, whole, line_step, line_steps, IsOpenEnd, is_paragraph_open};
ghost use Rattle.markdown_grammar.specs.LazyLines.{with_text};

/// One line more changes the blocks at their open end alone, so blocks by whole extents are found
/// by one walk over the lines that keeps the open end.
pub fn blocks_in_one_walk()
    ensures walk { (ls : List Line) → whole rules (line_steps rules (none_open no_blocks) ls) ≡ blocks ls }
    ensures line { (ls : List Line) (l : Line) → blocks (ls ++ l ∷ []) ≡ add_line rules (blocks ls) l }
{}

/// Whether a paragraph is open is seen at the open end, and a lazy line goes on that paragraph,
/// through each open container.
pub fn lazy_lines_reach_their_paragraph()
    ensures seen { (end : OpenEnd rules) → IsOpenEnd rules end → ends_in_paragraph rules (whole rules end) ≡ is_paragraph_open rules end }
    ensures taken { (t : List ℕ) (end : OpenEnd rules) → is_paragraph_open rules end ≡ true → line_step rules end (lazy_line t) ≡ with_text (trim_front t) end }
{}
