// Inlines and other texts, from left to right.
ghost use Rattle.std.specs.Prelude.{◌≡◌, ℕ, List};
ghost use Rattle.markdown_grammar.specs.References.{resolved, resolved_step};
ghost use Rattle.markdown_grammar.specs.Definitions.{Definition, definitions, definitions_step};
ghost use Rattle.markdown_grammar.specs.Pieces.{Piece};
ghost use Rattle.markdown_grammar.specs.Emphasis.{Settled, IsStep, pairs, plain};
ghost use Rattle.markdown_grammar.specs.Reading.{Spot, pieces_from, pieces_step};

/// Pieces among which no closer has an opener stay so after one more piece, or after the pair that
/// it makes; so a stack of pieces finds the pairs of the rewriting in one pass.
pub fn emphasis_in_one_pass()
    ensures step { (before : List Piece) (p : Piece) (ps : List Piece) → Settled before → IsStep before p ps }
    ensures end { (before : List Piece) → Settled before → pairs before ≡ plain before }
{}

/// Escapes and references, link reference definitions and the pieces of inlines are found one after
/// another.
pub fn texts_from_left_to_right()
    ensures escapes { (t : List ℕ) → resolved t ≡ resolved_step resolved t }
    ensures definitions { (t : List ℕ) → definitions t ≡ definitions_step definitions t }
    ensures pieces { (defs : List Definition) (s : Spot) → pieces_from defs s ≡ pieces_step defs (pieces_from defs) s }
{}
