//! What is true of every list of names. A law has no body: its clause is proved.
ghost use Rattle.name_lists.specs.Laws as law;

/// Names that are added one after another, beginning with none, are those names, each once.
pub fn law_of_adding()
    ensures { law.AddingGivesEachOnce }
{}
