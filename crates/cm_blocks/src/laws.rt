// What the document of blocks keeps of them.
ghost use Rattle.std.specs.Prelude.{◌≡◌};
ghost use Rattle.markdown_grammar.specs.Blocks.{Blocks};
ghost use Rattle.markdown_grammar.specs.Html.{html_of};
ghost use Rattle.markdown_grammar.specs.LinksOf.{links_of};
ghost use Rattle.cm_blocks.specs.DocumentHtml.{document_html};
ghost use Rattle.cm_blocks.specs.Documents.{document_of};

/// The HTML of blocks is that of their document, so a document and the definitions are all that printing
/// needs. The function does nothing when it runs; its contract is the law.
pub fn documents_have_the_html_of_their_blocks()
    ensures { (bs : Blocks) → html_of bs ≡ document_html (links_of bs) (document_of bs) }
{}
