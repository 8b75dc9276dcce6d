//! What is true of every printed text. A law has no body: its clause is proved.
ghost use Rattle.expr_print.specs.Laws.{PrintsAndParses};

/// The text of a printable expression gives it back.
pub fn law_of_printing()
    ensures { PrintsAndParses }
{}
